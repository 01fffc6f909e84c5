//! Volumes for tests, and changes to their headers.

use luks_cipher::Mode;
use luks_kdf::Hash;
use luks_test_support::bytes::{at, counted, put_each};
use luks_test_support::header2::{self, image_of};
use luks_volume::luks1::seal1;
use luks_volume::parameters::{Seal1, Slot1};
use std::process::Abort;

/// The volume key.
pub(super) const KEY: &[u8] = b"a volume key of AES-256 has two halves, thirty-two bytes in each";

/// The newest mode, with that key.
pub(super) const NEWEST: (Mode, &[u8]) = (Mode::XtsPlain64, KEY);

/// The passphrase of the key slot.
pub(super) const PASSPHRASE: &[u8] = b"correct horse";

/// The length of the plaintext: three sectors.
pub(super) const PLAIN_LEN: usize = 1536;

// These bytes six times, followed by the first 30 of them.
macro_rules! six_times {
    ($($byte:literal)*) => {
        [
            $($byte,)* $($byte,)* $($byte,)* $($byte,)* $($byte,)* $($byte,)*
            0, 1, 2, 3, 4, 5, 6, 7, 8, 9, 10, 11, 12, 13, 14, 15, 16, 17, 18, 19, 20, 21, 22, 23,
            24, 25, 26, 27, 28, 29,
        ]
    };
}

/// The plaintext, as `plain_of` makes it.
pub(super) static PLAIN: [u8; PLAIN_LEN] = six_times!(
    0 1 2 3 4 5 6 7 8 9 10 11 12 13 14 15 16 17 18 19 20 21 22 23 24 25 26 27 28 29 30 31 32 33
    34 35 36 37 38 39 40 41 42 43 44 45 46 47 48 49 50 51 52 53 54 55 56 57 58 59 60 61 62 63 64
    65 66 67 68 69 70 71 72 73 74 75 76 77 78 79 80 81 82 83 84 85 86 87 88 89 90 91 92 93 94 95
    96 97 98 99 100 101 102 103 104 105 106 107 108 109 110 111 112 113 114 115 116 117 118 119
    120 121 122 123 124 125 126 127 128 129 130 131 132 133 134 135 136 137 138 139 140 141 142
    143 144 145 146 147 148 149 150 151 152 153 154 155 156 157 158 159 160 161 162 163 164 165
    166 167 168 169 170 171 172 173 174 175 176 177 178 179 180 181 182 183 184 185 186 187 188
    189 190 191 192 193 194 195 196 197 198 199 200 201 202 203 204 205 206 207 208 209 210 211
    212 213 214 215 216 217 218 219 220 221 222 223 224 225 226 227 228 229 230 231 232 233 234
    235 236 237 238 239 240 241 242 243 244 245 246 247 248 249 250
);

/// How a volume is made: its stripes, its payload's start in sectors, and the iterations of its key
/// slot and its digest.
#[derive(Clone, Copy)]
pub(super) struct Size {
    stripes: u32,
    payload_sectors: u32,
    slot_iterations: u32,
    digest_iterations: u32,
}

/// The usual size: the key material ends at byte 260,096, the payload starts at byte 2,097,152, and
/// the image has 2,098,688 bytes.
pub(super) const USUAL: Size = Size {
    stripes: 4000,
    payload_sectors: 4096,
    slot_iterations: 1000,
    digest_iterations: 1000,
};

/// How many bytes the image of a usual volume has.
pub(super) const USUAL_LEN: usize = 2_098_688;

/// A small size: the key material ends at byte 4,608, the payload starts at byte 36,864, and the
/// image has 38,400 bytes.
pub(super) const SMALL: Size = Size {
    stripes: 4,
    payload_sectors: 72,
    slot_iterations: 2,
    digest_iterations: 1,
};

/// How many bytes the image of a small volume has.
pub(super) const SMALL_LEN: usize = 38_400;

/// These parts of a text, joined.
pub(super) fn text_of(rt: &(impl Abort + AllocGlobal), parts: &[&str]) -> String {
    parts.concat(rt.alloc()).expect(rt, "memory for a text")
}

/// A plaintext of this length. Of any 251 successive sectors of it, no two are alike.
pub(super) fn plain_of(rt: &(impl Abort + AllocGlobal), len: usize) -> Vec<u8> {
    counted(rt.alloc(), len).expect(rt, "memory for plain bytes")
}

/// A volume in this mode with this key. Only its key slot 0 is in use.
pub(super) fn sealed(
    rt: &(impl Abort + AllocGlobal),
    (mode, key): (Mode, &[u8]),
    size: Size,
    passphrase: &[u8],
) -> Vec<u8> {
    let count = key.len().min(64) * size.stripes.saturating_sub(1).min(4000) as usize;
    let random = plain_of(rt, count);
    let plain = plain_of(rt, PLAIN_LEN);
    let slots = [Slot1 {
        number: 0,
        iterations: size.slot_iterations,
        salt: [0x51; 32],
        passphrase,
        random: &random,
    }];
    let volume = Seal1 {
        hash: Hash::Sha256,
        mode,
        key,
        stripes: size.stripes,
        payload_sectors: size.payload_sectors,
        uuid: b"a-uuid",
        digest_salt: [0xd1; 32],
        digest_iterations: size.digest_iterations,
        slots: &slots,
        plain: &plain,
    };
    seal1(rt.alloc(), &volume).expect(rt, "a volume")
}

/// The usual volume, in the newest mode, with the usual passphrase.
pub(super) fn usual(rt: &(impl Abort + AllocGlobal)) -> Vec<u8> {
    sealed(rt, NEWEST, USUAL, PASSPHRASE)
}

/// A small volume, in the newest mode, with the usual passphrase.
pub(super) fn small(rt: &(impl Abort + AllocGlobal)) -> Vec<u8> {
    sealed(rt, NEWEST, SMALL, PASSPHRASE)
}

/// Bytes at offsets of a header.
pub(super) type Changes = &'static [(usize, &'static [u8])];

/// The payload of a LUKS1 header starts at byte 0.
pub(super) const AT_START: Changes = &[(104, &[0; 4])];

/// A primary LUKS2 header names a size of 65,536 bytes, so that its checksum no longer matches.
pub(super) const NAMES_64_KIB: Changes = &[(8, &[0, 0, 0, 0, 0, 1, 0, 0])];

/// The first `len` bytes of an image, padded with zeros, and with these changes.
pub(super) fn changed(
    rt: &(impl Abort + AllocGlobal),
    image: &[u8],
    len: usize,
    changes: &[(usize, &[u8])],
) -> Vec<u8> {
    let mut other = at(image, 0, len)
        .to_vec(rt.alloc())
        .expect(rt, "memory for an image");
    other.resize(len, 0).expect(rt, "memory for an image");
    put_each(&mut other, changes);
    other
}

/// The image, padded with zeros or truncated to `len` bytes, followed by these bytes.
pub(super) fn followed(
    rt: &(impl Abort + AllocGlobal),
    mut image: Vec<u8>,
    len: usize,
    bytes: &[u8],
) -> Vec<u8> {
    image.resize(len, 0).expect(rt, "memory for an image");
    image
        .extend_from_slice(bytes)
        .expect(rt, "memory for an image");
    image
}

/// The payload of a volume.
pub(super) fn payload_of(image: &[u8]) -> &[u8] {
    at(image, image.len().saturating_sub(PLAIN_LEN), PLAIN_LEN)
}

/// A LUKS2 key slot, without its number. Its key material is that of a small volume, and is right
/// after both headers. The salts and the digest are those of that volume, from Python's base64 and
/// hashlib modules.
pub(super) const SLOT: &str = "{\"type\":\"luks2\",\"key_size\":64,\
    \"af\":{\"type\":\"luks1\",\"stripes\":4,\"hash\":\"sha256\"},\
    \"area\":{\"type\":\"raw\",\"offset\":\"32768\",\"size\":\"512\",\
    \"encryption\":\"aes-xts-plain64\",\"key_size\":64},\
    \"kdf\":{\"type\":\"pbkdf2\",\"hash\":\"sha256\",\"iterations\":2,\
    \"salt\":\"UVFRUVFRUVFRUVFRUVFRUVFRUVFRUVFRUVFRUVFRUVE=\"}}";

const DIGEST: &str = "\"hash\":\"sha256\",\"iterations\":1,\
    \"salt\":\"0dHR0dHR0dHR0dHR0dHR0dHR0dHR0dHR0dHR0dHR0dE=\",\
    \"digest\":\"kh/wb/bbnsoJhTaSaOTgsjtZ5Ng=\"";

// The JSON text with these key slots, the digest's list of their names, and a payload of this size
// from this offset on.
fn json_of(
    rt: &(impl Abort + AllocGlobal),
    (slots, names): (&str, &str),
    (offset, size): (&str, &str),
) -> String {
    let parts = [
        "{\"keyslots\":{",
        slots,
        "},\"segments\":{\"0\":{\"type\":\"crypt\",\"offset\":\"",
        offset,
        "\",\"size\":\"",
        size,
        "\",\"iv_tweak\":\"0\",\"encryption\":\"aes-xts-plain64\",\"sector_size\":512}},\
        \"digests\":{\"0\":{\"type\":\"pbkdf2\",\"keyslots\":[",
        names,
        "],\"segments\":[\"0\"],",
        DIGEST,
        "}}}",
    ];
    text_of(rt, &parts)
}

/// Both LUKS2 headers and the key material of a small volume, 33,280 bytes, with these key slots,
/// the digest's list of their names, and a payload of this size from this offset on.
pub(super) fn prefix2_of(
    rt: &(impl Abort + AllocGlobal),
    slots: (&str, &str),
    segment: (&str, &str),
) -> Vec<u8> {
    let json = json_of(rt, slots, segment);
    let headers = image_of(rt.alloc(), 1, 1, json.as_str()).expect(rt, "memory for headers");
    followed(rt, headers, 2 * header2::SIZE, at(&small(rt), 4096, 512))
}

/// The same with slot 0 alone.
pub(super) fn prefix2(rt: &(impl Abort + AllocGlobal), offset: &str, size: &str) -> Vec<u8> {
    let slots = text_of(rt, &["\"0\":", SLOT]);
    prefix2_of(rt, (slots.as_str(), "\"0\""), (offset, size))
}

/// A volume of LUKS2 with a payload of this size: its key material ends at byte 33,280, its payload
/// starts at byte 36,864, and the image has 38,400 bytes.
pub(super) fn sealed2(rt: &(impl Abort + AllocGlobal), size: &str) -> Vec<u8> {
    followed(
        rt,
        prefix2(rt, "36864", size),
        36_864,
        payload_of(&small(rt)),
    )
}
