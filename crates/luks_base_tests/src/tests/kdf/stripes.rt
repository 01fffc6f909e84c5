ghost use Rattle.std.specs.Prelude.{◌≡◌, length};

use super::mac::check_digest;
use super::{HASHES, assert_hex, assert_in, number};
use luks_kdf::{AfSplitter, Hash, af_merge, af_split, digest, xor_into};
use std::process::Abort;

// Splits the key, and asserts that the stripes begin with the random ones and merge to the key.
fn split(rt: &impl Abort, hash: Hash, key: &[u8], random: &[u8], stripes: &mut [u8]) {
    split_alone(rt, hash, key, random, stripes);
    assert!(rt; &stripes[..stripes.len().min(random.len())] == random);
    let mut merged = [0xEE; 512];
    let merged = &mut merged[..key.len().min(512)];
    merge(rt, hash, stripes, merged);
    assert!(rt; &*merged == key);
}

fn split_alone(rt: &impl Abort, hash: Hash, key: &[u8], random: &[u8], stripes: &mut [u8]) {
    assert!(rt; !key.is_empty());
    assert!(rt; key.len() <= 512);
    let count = stripes.len() / key.len();
    assert!(rt; 1 <= count && count <= 4000);
    assert!(rt; stripes.len() == count * key.len());
    assert!(rt; stripes.len() - key.len() == random.len());
    af_split(hash, key, random, stripes);
}

fn merge(rt: &impl Abort, hash: Hash, stripes: &[u8], merged: &mut [u8]) {
    assert!(rt; !merged.is_empty());
    assert!(rt; merged.len() <= 512);
    let count = stripes.len() / merged.len();
    assert!(rt; 1 <= count && count <= 4000);
    assert!(rt; stripes.len() == count * merged.len());
    af_merge(hash, stripes, merged);
}

#[test]
fn bytes_are_xored(rt: HostRuntime) {
    let mut bytes = [0x0F, 0xF0, 0xFF];
    xor_into(&mut bytes, &[0xFF, 0xFF, 0x01]);
    assert!(rt; bytes == [0xF0, 0x0F, 0xFE]);
}

#[test]
fn one_stripe_is_the_key(rt: HostRuntime) {
    let mut key = [0; 32];
    number(&mut key, 1);
    let mut stripes = [0xEE; 32];
    split(&rt, Hash::Sha256, &key, &[], &mut stripes);
    assert!(rt; stripes == key);
}

#[test]
fn two_stripes_of_zeros_and_ones(rt: HostRuntime) {
    let mut stripes = [0xEE; 56];
    split(&rt, Hash::Sha256, &[0xFF; 28], &[0; 28], &mut stripes);
    let last = b"99978552079d428893703e74716071dff768eb7a911dcc4c6fd5a6e2";
    assert_hex(&rt, &stripes[28..], last);
}

// The first 28 bytes of the SHA-256 of 32 zero bytes: the result of Diffuse on 28 zeros.
const DIFFUSED_ZEROS: [u8; 28] = [
    0x66, 0x68, 0x7a, 0xad, 0xf8, 0x62, 0xbd, 0x77, 0x6c, 0x8f, 0xc1, 0x8b, 0x8e, 0x9f, 0x8e, 0x20,
    0x08, 0x97, 0x14, 0x85, 0x6e, 0xe2, 0x33, 0xb3, 0x90, 0x2a, 0x59, 0x1d,
];

#[test]
fn three_stripes_of_zeros(rt: HostRuntime) {
    let mut random = [0; 56];
    random[28..].copy_from_slice(&DIFFUSED_ZEROS);
    let mut stripes = [0xEE; 84];
    split(&rt, Hash::Sha256, &[0; 28], &random, &mut stripes);
    assert!(rt; &stripes[56..] == DIFFUSED_ZEROS.as_slice());
}

// Here and below, the values are from a Python script that uses only `hashlib`:
//
//     def diffuse(h, block):
//         n = hashlib.new(h).digest_size
//         pieces = [block[i:i + n] for i in range(0, len(block), n)]
//         return b"".join(hashlib.new(h, j.to_bytes(4, "big") + p).digest()[:len(p)]
//                         for j, p in enumerate(pieces))
//
//     def split(h, key, random):
//         d = bytes(len(key))
//         for i in range(0, len(random), len(key)):
//             d = diffuse(h, xor(d, random[i:i + len(key)]))
//         return random + xor(d, key)
//
// The key is 1, 8, 15 and so on, and the two random stripes are 3, 10, 17 and so on.
static LAST_OF_64: [&[u8]; 5] = [
    b"cc6d47b338d9720c067f59cb7f3bf1950ef9c6dc9b6ebfb5997088055031aac958630c2f22a24a52cb30c5591860149d68c347695e15e32af73b47256d1f7792",
    b"bd7c82e78ff24ef9e81a2bb55ba0867ad9c7c019edce19030be890c11b792ad794916c1b6b666550203958f3d24317782f6c5e8d18475f5e714e3bbe2f95c4c6",
    b"bb35a98d4fd18727c2b515d88195a1648be58a132ee8ca3381cb52a763a50ca018c158f9339d311aacb89b5933d5454592d0e58142bcb24e0789b52e7fd676fd",
    b"8adbe667b13e9a532594a93d3b3b29ea04312b2a5f88a4fb18817c95497ce02cb7f7cf742b5e68ccee63a301852da65236b72974c94d895250516a0cb2abf40b",
    b"3528b40f34260f8f331781a83ea740c0034c28b55527977463b625e9a7e1307d8703032da19513761bc5e2dbff9c98b3a49aa72560774ef73db38671a585647f",
];

#[test]
fn three_stripes_of_64_bytes(rt: HostRuntime) {
    let mut key = [0; 64];
    number(&mut key, 1);
    let mut random = [0; 128];
    number(&mut random, 3);
    for i in 0..5 {
        let mut stripes = [0xEE; 192];
        split(&rt, HASHES[i], &key, &random, &mut stripes);
        assert_hex(&rt, &stripes[128..], LAST_OF_64[i]);
    }
}

// The SHA-256 of the last of three stripes of 512 bytes.
static LAST_OF_512: [&[u8]; 5] = [
    b"4ef034587f3dacea47dc1a7cab5d258d2af868e11ab8c9916391b8d4f5beafb8",
    b"9c213ae9dbeb61023f9ad7e899f74f554b15748afbe92531b641dd857c9722f3",
    b"9ff454f71212d481195464e56d86d1b2b1c1a70ea867787f20d1a1ddeede3532",
    b"74bb960cfcf18e6065c5ae0bb4b8a8cb82ec60dc03b678a5de77b417fbe7b946",
    b"2393c2c87fa848040df4756ae0ee2a1e7d8b87f4d8423be7bab2e54118d4a7ce",
];

#[test]
fn three_stripes_of_512_bytes(rt: HostRuntime) {
    let mut key = [0; 512];
    number(&mut key, 1);
    let mut random = [0; 1024];
    number(&mut random, 3);
    for i in 0..5 {
        let mut stripes = [0xEE; 1536];
        split(&rt, HASHES[i], &key, &random, &mut stripes);
        check_digest(
            &rt,
            Hash::Sha256,
            &stripes[1024..],
            b"",
            b"",
            LAST_OF_512[i],
        );
    }
}

#[test]
fn three_stripes_of_one_byte(rt: HostRuntime) {
    let wants = [0x3f, 0xce, 0x9c, 0xb6, 0x37];
    for i in 0..5 {
        let mut stripes = [0xEE; 3];
        split(&rt, HASHES[i], &[1], &[3, 10], &mut stripes);
        assert_in(&rt, i, stripes == [3, 10, wants[i]]);
    }
}

#[test]
fn stripes_at_the_maximum(rt: HostRuntime) {
    let mut stripes = [0xEE; 4000];
    split(&rt, Hash::Sha1, &[0x5A], &[0; 3999], &mut stripes);
}

// A splitter that has absorbed the stripes of 33 bytes, one at a time.
fn splitter_after(rt: &impl Abort, stripes: &[u8]) -> AfSplitter
    ensures { length result.block ≡ 33 }
{
    let mut splitter = AfSplitter::new(Hash::Sha256, 33);
    for stripe in stripes.chunks_exact(33) {
        assert!(rt; stripe.len() == 33);
        splitter.stripe(stripe);
    }
    splitter
}

// Splits and merges 50 stripes of 33 bytes, one at a time, and checks the SHA-256 of all.
#[test]
fn one_stripe_at_a_time(rt: HostRuntime) {
    let mut key = [0; 33];
    number(&mut key, 1);
    let mut random = [0; 1617];
    number(&mut random, 3);
    let mut last = [0xEE; 33];
    splitter_after(&rt, &random).last(&key, &mut last);
    let mut out = [0; 32];
    digest(Hash::Sha256, &random, &last, &[], &mut out);
    let want = b"a6c92704859f3098e6114d88c023228e41b5ebac78197ba800e10eb0d48765e3";
    assert_hex(&rt, &out, want);

    let mut merged = [0xEE; 33];
    splitter_after(&rt, &random).last(&last, &mut merged);
    assert!(rt; merged == key);
}
