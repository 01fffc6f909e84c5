ghost use Rattle.std.specs.Prelude.{◌≤◌};

use super::{HASHES, assert_hex};
use luks_kdf::{Hash, Work, digest, pbkdf2};
use std::process::Abort;

// Asserts the derived key, with as many bytes as the digits represent, and the count of the work.
fn check(
    rt: &impl Abort,
    hash: Hash,
    pass: &[u8],
    salt: &[u8],
    iterations: u32,
    want: &[u8],
    work: u128,
) {
    let mut out = [0xEE; 512];
    let len = want.len() / 2;
    assert!(rt; iterations >= 1);
    assert!(rt; len >= 1);
    assert!(rt; len <= 512);
    let mut counted = Work::new(0);
    pbkdf2(hash, pass, salt, iterations, &mut out[..len], &mut counted);
    assert_hex(rt, &out[..len], want);
    assert!(rt; counted.count() == work);
}

// RFC 6070, except for the case of 16,777,216 iterations.
#[test]
fn published_keys(rt: HostRuntime) {
    let rows: [(u32, &[u8]); 3] = [
        (1, b"0c60c80f961f0e71f3a9b524af6012062fe037a6"),
        (2, b"ea6c014dc72d6f8ccd1ed92ace1d41f0d8de8957"),
        (4096, b"4b007901b765489abead49d926f721d065a429c1"),
    ];
    for (iterations, want) in rows {
        check(
            &rt,
            Hash::Sha1,
            b"password",
            b"salt",
            iterations,
            want,
            iterations as u128,
        );
    }
    let pass = b"passwordPASSWORDpassword";
    let salt = b"saltSALTsaltSALTsaltSALTsaltSALTsalt";
    let want = b"3d2eec4fe41c849b80c8d83662c0e44a8b291a964cf2f07038";
    check(&rt, Hash::Sha1, pass, salt, 4096, want, 8192);
    let want = b"56fa6aa75548099dcc37d7f03425e0c3";
    check(&rt, Hash::Sha1, b"pass\0word", b"sa\0lt", 4096, want, 4096);
}

// Here and below, the keys are from Python's `hashlib.pbkdf2_hmac`.
#[test]
fn several_blocks(rt: HostRuntime) {
    let want = b"4b007901b765489abead49d926f721d065a429c12e463f6c4cd79401085b03dbc7e8b88f1447f8c3";
    check(&rt, Hash::Sha1, b"password", b"salt", 4096, want, 8192);
    let want =
        b"632c2812e46d4604102ba7618e9d6d7d2f8128f6266b4a03264d2a0460b7dcb388b3b1131f741bcbeb02541c8c2e97bd8bed62ab6425542e45512b7312f440eb";
    check(&rt, Hash::Sha256, b"password", b"salt", 1000, want, 2000);
    let want =
        b"afe6c5530785b6cc6b1c6453384731bd5ee432ee549fd42fb6695779ad8a1c5bf59de69c48f774efc4007d5298f9033c0241d5ab69305e7b64eceeb8d834cfec";
    check(&rt, Hash::Sha512, b"password", b"salt", 1000, want, 1000);
}

// Asserts the whole derived key, and shorter ones.
fn check_lengths(rt: &impl Abort, hash: Hash, want: &[u8]) {
    let size = hash.size();
    assert!(rt; want.len() == 4 * size + 2);
    check(rt, hash, b"password", b"salt", 3, want, 9);
    check_prefix(rt, hash, want, size + 1, 6);
    for len in [size, size - 1, 1] {
        check_prefix(rt, hash, want, len, 3);
    }
}

// Asserts the derived key of this length, which is a prefix of the whole one.
fn check_prefix(rt: &impl Abort, hash: Hash, want: &[u8], len: usize, work: u128) {
    assert!(rt; len <= want.len() / 2);
    check(rt, hash, b"password", b"salt", 3, &want[..2 * len], work);
}

// One byte more than two digests. A shorter key is a prefix of a longer one.
static KEYS_ABOUT_A_DIGEST: [&[u8]; 5] = [
    b"6b4e26125c25cf21ae35ead955f479ea2e71f6ff9e400029f04810eece31355533bb2ed348e604da70",
    b"947cf079cfc7f2016dcd7ec418840443edaabb90c496f98cabeec4bfb1a5a4aaff68cca92cf05a6d725502f8e0a8873b2660b7887a9bfd1478",
    b"ad35240ac683febfaf3cd49d845473fbbbaa2437f5f82d5a415ae00ac76c6bfccf9a9b8d6d2fe4a1e700c4460b040dbed692c1cb85a747f35588c08930fcfc41ac",
    b"1bfb451b6087e5d24eeffb57d7284448da95b581d35a1887d9a6e756af559b1fb4798a4529502f87cdf71f435d66d25e344483fb1f24ab37be82ed35c43762d01520cd6457ab0240e0b334cfc688f5da7cc7febb0af6bbb4a7d1def8190116bea3",
    b"b6b07cb2cebf4ad84468391a543824fccffe0e0769dbe6bddf10a65673c4b648e612d44918f9ce9a19a1294cf5140628084ba994c3b21a4ef4741220b811c633cfc0641fccbcc4164f1bbfcb1f33f595ae9aa4a33ddcce570157775980362c0ee28aa340c842a3ae84710167aea2f9ba34833cbf66a8922e5f165d886868fd3fd4",
];

#[test]
fn keys_about_a_digest(rt: HostRuntime) {
    for i in 0..5 {
        check_lengths(&rt, HASHES[i], KEYS_ABOUT_A_DIGEST[i]);
    }
}

static EMPTY: [&[u8]; 5] = [
    b"620c000a06fed9c10bca11516b3ac0228d671700",
    b"91565d346d1c1fe2036dd195f5e601d254b96f6f9c7b61e35e7f562f",
    b"97398411d6aea43a77acef92226ab8278d4db0668bd1d7a76a725f7680ac45c5",
    b"4e2b9109c23c305fc5c1d1e167741a52e9ebfd0805ff8662b323fd1169034a8cb3f626b2b97825d67adcc4183d30a062",
    b"a422663fda8609a1e2fd53541260edf886ec636605814c2e17b4c78d8f9e233266f223f65cb2b7440b12c099ce1aa3279e29aa848e29825103d2bc5a5f4f4ad3",
];

#[test]
fn empty_password_and_salt(rt: HostRuntime) {
    for i in 0..5 {
        check(&rt, HASHES[i], b"", b"", 2, EMPTY[i], 2);
    }
}

// A password of 129 bytes, longer than any block: sixteen times "password", and "x".
static LONG: [&[u8]; 5] = [
    b"2eab85e5e5c873d24613a93538fce2e5700e6be0",
    b"48987426dbdc0c4ffe58b763f8351066dc083fdd",
    b"f38c0a1e35403e732129a02955ffbdfa8f6ea21f",
    b"6059fd789503d58427564c44d02933fc17f4e188",
    b"681bada363405daecfc40e28d813e0b7f6e49fe2",
];

#[test]
fn long_passwords(rt: HostRuntime) {
    let mut pass = [b'x'; 129];
    for i in 0..16 {
        pass[8 * i..8 * i + 8].copy_from_slice(b"password");
    }
    for i in 0..5 {
        check(&rt, HASHES[i], &pass, b"salt", 2, LONG[i], 2);
    }
}

fn check_longest(rt: &impl Abort, hash: Hash, want: &[u8], work: u128) {
    let mut key = [0; 512];
    let mut counted = Work::new(0);
    pbkdf2(hash, b"password", b"salt", 2, &mut key, &mut counted);
    assert!(rt; counted.count() == work);
    let mut out = [0; 32];
    digest(Hash::Sha256, &key, b"", b"", &mut out);
    assert_hex(rt, &out, want);
}

// The SHA-256 of keys of 512 bytes.
static KEYS_OF_512_BYTES: [(&[u8], u128); 5] = [
    (
        b"5a5925da41f7326096589f1a1b5490b77cccf68f1927603d8333909b743de5a4",
        52,
    ),
    (
        b"58dac40ddbd0221bab911ae3176e6774d0bbdb16efd1530a20373ee538959091",
        38,
    ),
    (
        b"f9e195c05042d999165ed20d879873fb3495e610b036170783b0f83e9009d1b2",
        32,
    ),
    (
        b"d0cef4978bb35706f0070217e979b73848d184821a852c3eaac451152d2eda51",
        22,
    ),
    (
        b"cd0ef5fbc0d9c94c2e9c1e801407d9f0f4dbcb1fa0c33adbc0f023d156590326",
        16,
    ),
];

#[test]
fn keys_of_512_bytes(rt: HostRuntime) {
    for i in 0..5 {
        let (want, work) = KEYS_OF_512_BYTES[i];
        check_longest(&rt, HASHES[i], want, work);
    }
}

// Adds a key to the mark of many keys: the new mark is the SHA-256 of the mark before and the key.
// The first mark is zeros.
fn add_to_mark(mark: &mut [u8; 32], hash: Hash, iterations: u32, length: usize)
    requires iterations { 1 ≤ iterations }
    requires some { 1 ≤ length }
    requires capacity { length ≤ 512 }
{
    let mut key = [0; 512];
    let key = &mut key[..length];
    pbkdf2(
        hash,
        b"password",
        b"salt",
        iterations,
        key,
        &mut Work::new(0),
    );
    let before = *mark;
    digest(Hash::Sha256, &before, key, b"", mark);
}

// The mark of the keys of 1 to 512 bytes, each longer than the one before it by `step` bytes.
fn mark_of(hash: Hash, iterations: u32, step: usize) -> [u8; 32]
    requires iterations { 1 ≤ iterations }
    requires step { 1 ≤ step }
{
    let mut mark = [0; 32];
    for length in 1..513 {
        if (length - 1) % step == 0 {
            add_to_mark(&mut mark, hash, iterations, length);
        }
    }
    mark
}

// The hash function, the iterations, the step from each length to the next, and the mark.
static MARKS: [(Hash, u32, usize, &[u8]); 20] = [
    (
        Hash::Sha1,
        1,
        1,
        b"53b80f052f565b4a70b9f56bb17beee177bd24c2427b929a79da8b1413d3bed9",
    ),
    (
        Hash::Sha1,
        2,
        1,
        b"e7e67cd7706eee4a966a70d713edc05228a63ab941f84dc72e9b943e39f1964e",
    ),
    (
        Hash::Sha1,
        3,
        1,
        b"d61d00f9f452601be0d459ab14217ca09702d5417463f98856300c3a3561f086",
    ),
    (
        Hash::Sha1,
        1000,
        73,
        b"e30c501b0b6dc32b487a8b408ed7a7efcfb3209a02210a906046427d11e95ca8",
    ),
    (
        Hash::Sha224,
        1,
        1,
        b"27b4dce294e42992ae98c3a29704435cacd408510abff3384d875aa4e5f45e29",
    ),
    (
        Hash::Sha224,
        2,
        1,
        b"aff12e3847b29e1309fa2aab1857bda83a24c97a81af44764ebbe7600799e0fb",
    ),
    (
        Hash::Sha224,
        3,
        1,
        b"bae065e9cd64b66f745cb5a0d80e0775cdec017b7b9847879db12e3373cc4313",
    ),
    (
        Hash::Sha224,
        1000,
        73,
        b"27f5667b3bca20938a41432cbed81035baed7c8249abb936b4eccb280b124956",
    ),
    (
        Hash::Sha256,
        1,
        1,
        b"6236264254c1630a2305f4d2b1e2d9a173f6909e2995cec46a839b62da3a72ff",
    ),
    (
        Hash::Sha256,
        2,
        1,
        b"6b05be8b5b9350fba2921bd184fca183d8613ff4355aa5caadde23519a952488",
    ),
    (
        Hash::Sha256,
        3,
        1,
        b"273e18a4d6904cf7a1600a29a721c1c88d0504f3b9651c3f6a5019b08ed2bcc9",
    ),
    (
        Hash::Sha256,
        1000,
        73,
        b"f88674f25e89e78b70037d20b62ecc92b573fecd809f3204a59889994cd43468",
    ),
    (
        Hash::Sha384,
        1,
        1,
        b"6aaec02851a9a2dbbd70cf27f6e3b06f92e0b8187abaef48d96c02362b39618a",
    ),
    (
        Hash::Sha384,
        2,
        1,
        b"3bbac44956fc65009e2ce112003c2707141f0cd0ad5518460de9eb7956d96afe",
    ),
    (
        Hash::Sha384,
        3,
        1,
        b"7ced205cedbb676153a5597da99b142aab813c1748882119a1833d3cfe3a9c14",
    ),
    (
        Hash::Sha384,
        1000,
        73,
        b"aec4b0740c608d3a06c0ed408fd300caeecc9eb69ee5b6d8e60bc8b7565601d0",
    ),
    (
        Hash::Sha512,
        1,
        1,
        b"014812ab4e9a0f41de59b953e6a0cca8ee0edcaf73d7951c901e9dac1bed6fea",
    ),
    (
        Hash::Sha512,
        2,
        1,
        b"94b6e078a072edb4052ab253724ec04305f1de85d967ff5901c47d306e101ca9",
    ),
    (
        Hash::Sha512,
        3,
        1,
        b"bd4ebf156319ced6ea293bd795766ff5498767792bfed9078039f0954f90c08e",
    ),
    (
        Hash::Sha512,
        1000,
        73,
        b"8366b2194f1441f4935a552d6465fe8638cf5320e761393d572d7202a725deca",
    ),
];

#[test]
fn every_length(rt: HostRuntime) {
    for (hash, iterations, step, want) in MARKS {
        assert!(rt; iterations >= 1);
        assert!(rt; step >= 1);
        assert_hex(&rt, &mark_of(hash, iterations, step), want);
    }
}

// Derives a key, and asserts the count of the work after it.
fn check_count(rt: &impl Abort, iterations: u32, work: &mut Work, count: u128) -> [u8; 20] {
    let mut key = [0; 20];
    assert!(rt; iterations >= 1);
    pbkdf2(Hash::Sha1, b"password", b"salt", iterations, &mut key, work);
    assert!(rt; work.count() == count);
    key
}

#[test]
fn work_is_counted_and_saturates(rt: HostRuntime) {
    let mut work = Work::new(7);
    assert!(rt; work.count() == 7);
    check_count(&rt, 2, &mut work, 9);
    check_count(&rt, 3, &mut work, 12);
    let mut full = Work::new(u128::MAX - 1);
    let key = check_count(&rt, 2, &mut full, u128::MAX);
    assert_hex(&rt, &key, b"ea6c014dc72d6f8ccd1ed92ace1d41f0d8de8957");
    check_count(&rt, 1, &mut full, u128::MAX);
}
