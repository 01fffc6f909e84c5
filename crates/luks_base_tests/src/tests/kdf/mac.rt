use super::{HASHES, assert_hex, number};
use luks_kdf::{Hash, digest, hmac};
use std::process::Abort;

pub(super) fn check_digest(rt: &impl Abort, hash: Hash, a: &[u8], b: &[u8], c: &[u8], want: &[u8]) {
    let mut out = [0xEE; 64];
    let out = &mut out[..hash.size()];
    digest(hash, a, b, c, out);
    assert_hex(rt, out, want);
}

fn check_hmac(rt: &impl Abort, hash: Hash, key: &[u8], message: &[u8], want: &[u8]) {
    let mut out = [0xEE; 64];
    let out = &mut out[..hash.size()];
    hmac(hash, key, message, out);
    assert_hex(rt, out, want);
}

// The HMACs by each hash function in turn.
fn check_each(rt: &impl Abort, key: &[u8], message: &[u8], wants: [&[u8]; 5]) {
    for i in 0..5 {
        check_hmac(rt, HASHES[i], key, message, wants[i]);
    }
}

// The digests of "abc" in NIST's examples for FIPS 180-4, with the message cut in several ways.
static DIGESTS_OF_PARTS: [&[u8]; 5] = [
    b"a9993e364706816aba3e25717850c26c9cd0d89d",
    b"23097d223405d8228642a477bda255b32aadbce4bda0b3f7e36c9da7",
    b"ba7816bf8f01cfea414140de5dae2223b00361a396177a9cb410ff61f20015ad",
    b"cb00753f45a35e8bb5a03d699ac65007272c32ab0eded1631a8b605a43ff5bed8086072ba1e7cc2358baeca134c825a7",
    b"ddaf35a193617abacc417349ae20413112e6fa4e89a97ea20a9eeee64b55d39a2192992a274fc1a836ba3c23a3feebbd454d4423643ce80e2a9ac94fa54ca49f",
];

#[test]
fn digests_of_parts(rt: HostRuntime) {
    let parts: [[&[u8]; 3]; 5] = [
        [b"a", b"b", b"c"],
        [b"abc", b"", b""],
        [b"", b"abc", b""],
        [b"", b"a", b"bc"],
        [b"ab", b"", b"c"],
    ];
    for i in 0..5 {
        let [a, b, c] = parts[i];
        check_digest(&rt, HASHES[i], a, b, c, DIGESTS_OF_PARTS[i]);
    }
}

// The digest of 32 zero bytes and of none, as `sha256sum` gives them.
#[test]
fn digests_of_zeros(rt: HostRuntime) {
    let zeros = b"66687aadf862bd776c8fc18b8e9f8e20089714856ee233b3902a591d0d5f2925";
    check_digest(&rt, Hash::Sha256, &[0; 10], &[0; 20], &[0; 2], zeros);
    let nothing = b"e3b0c44298fc1c149afbf4c8996fb92427ae41e4649b934ca495991b7852b855";
    check_digest(&rt, Hash::Sha256, b"", b"", b"", nothing);
}

// The first four cases of RFC 2202, section 3, for SHA-1, and of RFC 4231, section 4, for the other
// hash functions. Both have the same keys and messages.
#[test]
fn published_short_keys(rt: HostRuntime) {
    check_each(
        &rt,
        &[0x0b; 20],
        b"Hi There",
        [
            b"b617318655057264e28bc0b6fb378c8ef146be00",
            b"896fb1128abbdf196832107cd49df33f47b4b1169912ba4f53684b22",
            b"b0344c61d8db38535ca8afceaf0bf12b881dc200c9833da726e9376c2e32cff7",
            b"afd03944d84895626b0825f4ab46907f15f9dadbe4101ec682aa034c7cebc59cfaea9ea9076ede7f4af152e8b2fa9cb6",
            b"87aa7cdea5ef619d4ff0b4241a1d6cb02379f4e2ce4ec2787ad0b30545e17cdedaa833b7d6b8a702038b274eaea3f4e4be9d914eeb61f1702e696c203a126854",
        ],
    );
    check_each(
        &rt,
        b"Jefe",
        b"what do ya want for nothing?",
        [
            b"effcdf6ae5eb2fa2d27416d5f184df9c259a7c79",
            b"a30e01098bc6dbbf45690f3a7e9e6d0f8bbea2a39e6148008fd05e44",
            b"5bdcc146bf60754e6a042426089575c75a003f089d2739839dec58b964ec3843",
            b"af45d2e376484031617f78d2b58a6b1b9c7ef464f5a01b47e42ec3736322445e8e2240ca5e69e2c78b3239ecfab21649",
            b"164b7a7bfcf819e2e395fbe73b56e0a387bd64222e831fd610270cd7ea2505549758bf75c05a994a6d034f65f8f0e6fdcaeab1a34d4a6b4b636e070a38bce737",
        ],
    );
    check_each(
        &rt,
        &[0xaa; 20],
        &[0xdd; 50],
        [
            b"125d7342b9ac11cd91a39af48aa17b4f63f175d3",
            b"7fb3cb3588c6c1f6ffa9694d7d6ad2649365b0c1f65d69d1ec8333ea",
            b"773ea91e36800e46854db8ebd09181a72959098b3ef8c122d9635514ced565fe",
            b"88062608d3e6ad8a0aa2ace014c8a86f0aa635d947ac9febe83ef4e55966144b2a5ab39dc13814b94e3ab6e101a34f27",
            b"fa73b0089d56a284efb0f0756c890be9b1b5dbdd8ee81a3655f83e33b2279d39bf3e848279a722c806b485a47e67c807b946a337bee8942674278859e13292fb",
        ],
    );
    let mut counting = [0; 25];
    for i in 0..25 {
        counting[i] = i as u8 + 1;
    }
    check_each(
        &rt,
        &counting,
        &[0xcd; 50],
        [
            b"4c9007f4026250c6bc8414f9bf50c86c2d7235da",
            b"6c11506874013cac6a2abc1bb382627cec6a90d86efc012de7afec5a",
            b"82558a389a443c0ea4cc819899f2083a85f0faa3e578f8077a2e3ff46729665b",
            b"3e8a69b7783c25851933ab6290af6ca77a9981480850009cc5577c6e1f573b4e6801dd23c4a7d679ccf8a386c674cffb",
            b"b0ba465637458c6990e5a8c5f61d4af7e576d97ff94b872de76f8050361ee3dba91ca5c11aa25eb4d679275cc5788063a5f19741120c4f2de2adebeb10a298dd",
        ],
    );
}

// The last two cases of RFC 2202, section 3.
#[test]
fn published_long_keys_of_sha1(rt: HostRuntime) {
    check_hmac(
        &rt,
        Hash::Sha1,
        &[0xaa; 80],
        b"Test Using Larger Than Block-Size Key - Hash Key First",
        b"aa4ae5e15272d00e95705637ce8a3b55ed402112",
    );
    check_hmac(
        &rt,
        Hash::Sha1,
        &[0xaa; 80],
        b"Test Using Larger Than Block-Size Key and Larger Than One Block-Size Data",
        b"e8e99d0f45237d786d6bbaa7965c7808bbff1a91",
    );
}

// The last two cases of RFC 4231, section 4.
#[test]
fn published_long_keys_of_sha2(rt: HostRuntime) {
    let hashes = [Hash::Sha224, Hash::Sha256, Hash::Sha384, Hash::Sha512];
    let message = b"Test Using Larger Than Block-Size Key - Hash Key First";
    let wants: [&[u8]; 4] = [
        b"95e9a0db962095adaebe9b2d6f0dbce2d499f112f2d2b7273fa6870e",
        b"60e431591ee0b67f0d8a26aacbf5b77f8e0bc6213728c5140546040f0ee37f54",
        b"4ece084485813e9088d2c63a041bc5b44f9ef1012a2b588f3cd11f05033ac4c60c2ef6ab4030fe8296248df163f44952",
        b"80b24263c7c1a3ebb71493c1dd7be8b49b46d1f41b4aeec1121b013783f8f3526b56d037e05f2598bd0fd2215d6a1e5295e64f73f63f0aec8b915a985d786598",
    ];
    for i in 0..4 {
        check_hmac(&rt, hashes[i], &[0xaa; 131], message, wants[i]);
    }
    let message =
        b"This is a test using a larger than block-size key and a larger than block-size data. The key needs to be hashed before being used by the HMAC algorithm.";
    let wants: [&[u8]; 4] = [
        b"3a854166ac5d9f023f54d517d0b39dbd946770db9c2b95c9f6f565d1",
        b"9b09ffa71b942fcb27635fbcd5b0e944bfdc63644f0713938a7f51535c3a35e2",
        b"6617178e941f020d351e2f254e8fd32c602420feb0b8fb9adccebb82461e99c5a678cc31e799176d3860e6110c46523e",
        b"e37b6a775dc87dbaa4dfa9f96e5e3ffddebd71f8867289865df5a32d20cdc944b6022cac3c4982b10d5eeb55c3e4de15134676fb6de0446065c97440fa8c6a58",
    ];
    for i in 0..4 {
        check_hmac(&rt, hashes[i], &[0xaa; 131], message, wants[i]);
    }
}

fn check_about_a_block(rt: &impl Abort, hash: Hash, key: &[u8; 129], wants: [&[u8]; 4]) {
    let block = hash.block();
    let [shorter, whole, longer, nothing] = wants;
    check_hmac(rt, hash, &key[..block - 1], b"message", shorter);
    check_hmac(rt, hash, &key[..block], b"message", whole);
    check_hmac(rt, hash, &key[..block + 1], b"message", longer);
    check_hmac(rt, hash, b"", b"", nothing);
}

// Keys of one byte less than a block, of a block and of one byte more, with the bytes 5, 12, 19 and
// so on, and then an empty key and an empty message. The values are from Python's `hmac`.
static ABOUT_A_BLOCK: [[&[u8]; 4]; 5] = [
    [
        b"bd9631c42f11cd3e44c81fe9079f9585ed3a3251",
        b"c435e0d5fb0eeeb5d0e4ea17d12969b6c0c34af3",
        b"8c34efcfa0d9363fc42ec84328f53a512f4ada05",
        b"fbdb1d1b18aa6c08324b7d64b71fb76370690e1d",
    ],
    [
        b"29891fd44d2611cfa4e9a657485fcb69b91ff369d6377447361ae8e4",
        b"b450818bc04c223ae359e3d11cddeed8e2c738d7b443f8fd328106b1",
        b"ef03138874d625a18bb03ac3fbec73df34aaca4eea54caf4148d06b0",
        b"5ce14f72894662213e2748d2a6ba234b74263910cedde2f5a9271524",
    ],
    [
        b"fd3c7c3368b4c90254bbe09453361147918d13950fa4e9e0f2933af6d629809e",
        b"852d22a1dda6a0ac12ad590310c5fd4f4ff7d984d12561cfcdb303932b09331e",
        b"e13a393827ff8a2d2f3ac1f7cc2c1c3d39299bcebe45131025c11cbd0e5970eb",
        b"b613679a0814d9ec772f95d778c35fc5ff1697c493715653c6c712144292c5ad",
    ],
    [
        b"8ff7562ecb3863c48d555324ee14af2e799be5db62b157567ec6eb585c133ef6b57b09efda5ba3a19570e6a75f213093",
        b"5805b4f0ed42d9ea1a269b2fef3aced5a25f5baa903d19a26d853628cd83354c433e8566f88b5ff6c1bffffef462fa8a",
        b"23bb7cdb94cede273545e1400dc705722f2ec016a53f1c2bb68e8e321c440fe9e3104a574c94292979786df2efe6b664",
        b"6c1f2ee938fad2e24bd91298474382ca218c75db3d83e114b3d4367776d14d3551289e75e8209cd4b792302840234adc",
    ],
    [
        b"b43c1a2990ec835396bde0c1cd59220bf381c42235b8f472a90beafb930af1bb9229b77a19a32514dde363476f4b3d43a8b16c224dde1d342e329a393f381423",
        b"dd1da62a98282b0e869fe5cbaacc48ecd7aef206818da936b0f1003a3d2d14ee8ce267664c4a1ac988be8f498ad8f11a4e924dfd56de1cd6baebd2c5d5b58cf7",
        b"096a738998d0c0e7b43557d26c444828566cfef012a3a63958de2fb07fb1a60cefbd3e1dd71433b35ae4fec8491f34f4e9ab63196f90c2669a1531be9e40c787",
        b"b936cee86c9f87aa5d3c6f2e84cb5a4239a5fe50480a6ec66b70ab5b1f4ac6730c6c515421b327ec1d69402e53dfb49ad7381eb067b338fd7b0cb22247225d47",
    ],
];

#[test]
fn keys_about_a_block(rt: HostRuntime) {
    let mut key = [0; 129];
    number(&mut key, 5);
    for i in 0..5 {
        check_about_a_block(&rt, HASHES[i], &key, ABOUT_A_BLOCK[i]);
    }
}

// The HMAC under a key, and the HMAC under the key's digest.
fn by_key_and_digest(key: &[u8]) -> ([u8; 32], [u8; 32]) {
    let mut by_key = [0; 32];
    hmac(Hash::Sha256, key, b"message", &mut by_key);
    let mut hashed = [0; 32];
    digest(Hash::Sha256, key, b"", b"", &mut hashed);
    let mut by_digest = [0; 32];
    hmac(Hash::Sha256, &hashed, b"message", &mut by_digest);
    (by_key, by_digest)
}

// HMAC replaces a key longer than a block by its digest, but not a key of exactly a block.
#[test]
fn long_keys_are_hashed(rt: HostRuntime) {
    let mut key = [0; 65];
    number(&mut key, 5);
    let (by_key, by_digest) = by_key_and_digest(&key);
    assert!(rt; by_key == by_digest);
    let mut block = [0; 64];
    number(&mut block, 5);
    let (by_key, by_digest) = by_key_and_digest(&block);
    assert!(rt; by_key != by_digest);
}
