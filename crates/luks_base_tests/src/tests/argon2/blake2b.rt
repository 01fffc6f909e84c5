use super::{assert_bytes, numbered};
use luks_argon2::{Hasher, blake2b, blake2b_512, variable_length_hash};
use std::process::Abort;

// RFC 7693, appendix A.
#[test]
fn digest_of_abc(rt: HostRuntime) {
    let want =
        "ba80a53f981c4d0d6a2797b69f12f6e94c212f14685ac4b74b12bb6fdbffa2d17d87c5392aab792dc252d5de4533cc9518d38aa8dbf1925ab92386edd4009923";
    assert_bytes(&rt, &blake2b_512(b"abc"), want);
}

// Digests of 64 bytes of so many bytes, by Python's hashlib.
static DIGESTS: [(usize, &str); 7] = [
    (
        0,
        "786a02f742015903c6c6fd852552d272912f4740e15847618a86e217f71f5419d25e1031afee585313896444934eb04b903a685b1448b755d56f701afe9be2ce",
    ),
    (
        1,
        "9545ba37b230d8a2e716c4707586542780815b7c4088edcb9af6a9452d50f32474d5ba9aab52a67aca864ef2696981c2eadf49020416136afd838fb048d21653",
    ),
    (
        127,
        "d073fb3259c723b20a64ecf77083891a157c81c1882da42060222dfc7ebbda6da1b8ed55197aabd0ab17cf935499d8e4f6d93a4bb83a1aa5670a1612c70df1bb",
    ),
    (
        128,
        "c6d375fd4421510489194b8ccd9b1fc9e96dd25eab56f33bd698266fb38d8fbde447b617cdb5779c5fbeafe53fae640c85c457f6449ce307a11d88d18788d7f0",
    ),
    (
        129,
        "7cb95d837c7ccea0f9137c7bcdca4cd71152aa6ca7bf16d399d261191bd7f919c5c7699d0fd0c6ad98d98eae7ee3f0f0fa1e9fc35d84410886343ffc79624765",
    ),
    (
        255,
        "a4905fba298210e6f4ea9be3817806d8bf8c7b279b812f6a1ba01f4481227a02aabbe523199fe346452a9ac9882215d22852af1b3041825d60f58d303e8be005",
    ),
    (
        256,
        "add2f992dacfe7e31e9fc9f0a0b7b2740e95691ac93f9888ed292517a5d2db501aa2383e8b1a3685a628a1f06456debac9dd0fd9a3603f12f285a238b2771f72",
    ),
];

#[test]
fn digests(rt: HostRuntime) {
    for (len, want) in &DIGESTS {
        assert_bytes(&rt, &blake2b_512(&numbered(&rt, 1, *len)), want);
    }
}

// Digests of 129 bytes, by Python's hashlib.
static SHORT_DIGESTS: [(usize, &str); 4] = [
    (1, "b2"),
    (20, "3f515005fc4b63cf6701b231f6cf2e12579f606c"),
    (
        32,
        "524a9dc9d008a9ce1d9d2a111bcd10d2461a02dadf30ec5a47225501608a87eb",
    ),
    (
        63,
        "cd708729a58dd77e4a223e4593bb8dd27ce55bd32f684cc88d04c3da6ebc44b8386d16d42dd7dc1312d4f0d8307100b4df22c34b635bcb2e3080f15533da90",
    ),
];

fn check_length(rt: &(impl Abort + AllocGlobal), message: &[u8], len: usize, want: &str) {
    assert!(rt; 0 < len && len <= 64);
    let mut out = [0xEE; 64];
    let out = &mut out[..len];
    blake2b(message, out);
    assert_bytes(rt, out, want);
}

#[test]
fn digest_lengths(rt: HostRuntime) {
    let message = numbered(&rt, 1, 129);
    for (len, want) in &SHORT_DIGESTS {
        check_length(&rt, &message, *len, want);
    }
}

fn check_pieces(rt: &(impl Abort + AllocGlobal), message: &[u8], cut: usize, want: &[u8]) {
    assert!(rt; cut <= message.len());
    let mut hasher = Hasher::new(64);
    hasher.update(&message[..cut]);
    hasher.update(&[]);
    hasher.update(&message[cut..]);
    let mut out = [0xEE; 64];
    hasher.finish(&mut out);
    assert!(rt; out.as_slice() == want, "{cut}");
}

#[test]
fn messages_in_pieces(rt: HostRuntime) {
    let message = numbered(&rt, 1, 256);
    let want = blake2b_512(&message);
    for cut in [0, 1, 127, 128, 129, 255, 256] {
        check_pieces(&rt, &message, cut, &want);
    }
}

// H' of 72 bytes, by a Python script of RFC 9106's section 3.3 over hashlib.
static VARIABLE_LENGTHS: [(usize, &str); 6] = [
    (1, "7b"),
    (
        32,
        "a90ce6a67aaab14090a1189b0e9c7134031b5f4e1d8046c50a77a75724ecd145",
    ),
    (
        64,
        "b33d66f9b1715e6c99f9826af1b738d631a592df54eeedbefe109b4c034d0bf947f89f599329bc61c8986ffe834d59701620d4df5c11abef2481b51b25e6060c",
    ),
    (
        65,
        "c1f5910b7356dde4e07b56790e1c5fe1e507410aec79e3b5ceb26a3effd294e5cb05630234322d5fd521a1cb3128248d9cb5abbce3c8202fe68347adaf6d5b1b17",
    ),
    (
        96,
        "ccb46bc9d8a2ff3a02da14659aa372ce526b225c3d0da421c2d94b7ece0779f58334e882592ea06737f9353346bbb082cf095c2ad3c446222b7d33ec79b9eba92d92087e8cb81391c528e2fe3b5b55deba8b394cbeecbfc0bc23d274f74f2c70",
    ),
    (
        128,
        "dc7dd7719acda942279327cc7e41924ee57c0c1f55e40908ae3ecf5f3a05ded8c80de92df951c24100f49260c189cd4861c19189116b1c5bb58a7a5f7d28c3504881b1b00935ffe6b37edfa6319800cbf9d049ae69b52192c41a5c2d0af561d31fe7faab7622d9284418fad5d417c341a056234d83ac7f6e5ec76b6151b238d1",
    ),
];

fn check_variable(rt: &(impl Abort + AllocGlobal), input: &[u8], len: usize, want: &str) {
    assert!(rt; 0 < len && len <= 128);
    let mut out = [0xEE; 128];
    let out = &mut out[..len];
    variable_length_hash(input, out);
    assert_bytes(rt, out, want);
}

#[test]
fn variable_lengths(rt: HostRuntime) {
    let input = numbered(&rt, 1, 72);
    for (len, want) in &VARIABLE_LENGTHS {
        check_variable(&rt, &input, *len, want);
    }
}
