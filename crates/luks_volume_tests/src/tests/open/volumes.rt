//! Two volumes of LUKS1, and what a passphrase opens in them.
//!
//! Their bytes were written by a Python script with hashlib (`pbkdf2_hmac` and the hash functions)
//! and the package cryptography (AES in its mode XTS). cryptsetup opens a volume of that script
//! with the passphrases that it was made with, and with no other. It does not open these two, since
//! they have few stripes.
//!
//! If a call must succeed, an error ends the test at once: what is not returned need not be dropped
//! on the way.

use luks_header::area::HeaderArea;
use luks_header::header::{Header, read_header};
use luks_header::header_segment::segment;
use luks_io::memory::MemSource;
use luks_kdf::Work;
use luks_open::fault::OpenFault;
use luks_open::opening::{Opened, open};
use luks_open::order::key_material_end;
use luks_open::ordering::order;
use std::process::Abort;

/// An image: its length, and rows that each have an offset and the bytes that are there.
#[derive(Clone, Copy)]
pub struct Volume {
    len: usize,
    rows: &'static str,
    /// The volume key, as hexadecimal digits.
    pub key: &'static str,
}

/// SHA-256, a key of 32 bytes, 7 iterations of the digest, the payload from sector 9 on.
///
/// | Slot | State | Iterations | First sector | Stripes | Passphrase |
/// |---|---|---|---|---|---|
/// | 0 | in use | 5 | 2 | 2 | first |
/// | 2 | in use | 5 | 3 | 0 | |
/// | 3 | in use | 9 | 8 | 5 | second |
/// | 4 | 1 | 5 | 3 | 1 | |
/// | 5 | in use | 3 | 4 | 19 | third |
/// | 6 | in use | 2 | 9 | 1 | |
pub const SHORT_KEY: Volume = Volume {
    len: 4608,
    rows: SHORT_KEY_ROWS,
    key: "8e8ae659af122b9b679534a9813e4f804495d5d43212c23e2e86fc40470f43f8",
};

/// SHA-1, a key of 64 bytes, 3 iterations of the digest, the payload from sector 4 on. Slot 0 alone
/// is in use, with 4 iterations and 9 stripes from sector 2 on. Its passphrase is sesame.
pub const LONG_KEY: Volume = Volume {
    len: 2048,
    rows: LONG_KEY_ROWS,
    key: "a2a9dfed4a37caad14836d5c1606e071f59979b9a501cff54940e687216babfba438fcb6041fa17d5c67141834ee994d19be8553fc1840d6e6c0b171886ad705",
};

impl Volume {
    /// The bytes of the image.
    pub fn image(&self, rt: &(impl Abort + AllocGlobal)) -> Vec<u8> {
        let mut image = vec![in rt.alloc(); 0; self.len].expect(rt, "memory");
        for row in self.rows.lines() {
            let (offset, digits) = row.split_once(' ').expect(rt, "a row");
            let mut at = [0; 2];
            hex::decode_to_slice(offset, &mut at).expect(rt, "an offset");
            let start = usize::from(u16::from_be_bytes(at));
            assert!(rt; start + 32 <= image.len());
            hex::decode_to_slice(digits, &mut image[start..start + 32]).expect(rt, "a row");
        }
        image
    }
}

/// A request for an image: the passphrase, the named slot, and the limit of iterations.
#[derive(Clone, Copy, Debug)]
pub struct Question<'a> {
    pub pass: &'a [u8],
    pub named: Option<u8>,
    pub limit: Option<u32>,
}

// What a passphrase opens in a header's image.
fn opened(
    rt: &(impl Abort + AllocGlobal),
    header: &Header,
    area: &mut HeaderArea,
    source: &mut MemSource<'_>,
    question: Question<'_>,
    work: &mut Work,
) -> Result<Opened, OpenFault> {
    let Ok(_) = segment(header) else {
        panic!(rt; "the segment is refused");
    };
    let order = match order(rt.alloc(), header, question.named, question.limit) {
        Ok(order) => order,
        Err(fault) => return Err(fault),
    };
    let Ok(true) = area.extend_to(source, key_material_end(&order)) else {
        panic!(rt; "the image is cut");
    };
    open(header, area, &order, question.pass, work)
}

/// What a passphrase opens in an image.
pub fn answer(
    rt: &(impl Abort + AllocGlobal),
    image: &[u8],
    question: Question<'_>,
    work: &mut Work,
) -> Result<Opened, OpenFault> {
    let mut source = MemSource::new(image);
    let (header, mut area) = read_header(rt.alloc(), &mut source).expect(rt, "a header");
    opened(rt, &header, &mut area, &mut source, question, work)
}

const SHORT_KEY_ROWS: &str = "\
0000 4c554b53babe0001616573000000000000000000000000000000000000000000
0020 00000000000000007874732d706c61696e363400000000000000000000000000
0040 0000000000000000736861323536000000000000000000000000000000000000
0060 0000000000000000000000090000002083bb886cd0fff544c154c2ab277e0612
0080 a014aa676f00f8c896a2b8f28f457fb7e93ba801beb73e0a79366fbf052285a5
00a0 40d1f9ea0000000738666638346162302d316232662d346239632d613365382d
00c0 3564316337613165306634320000000000ac71f30000000561971c79723909d5
00e0 8a27708059b41899621b45665e4030739ed53446fa46fc380000000200000002
0100 0000dead00000000000000000000000000000000000000000000000000000000
0120 0000000000000000000000000000000000ac71f300000005d100b873cab933f3
0140 e3d06b0b5c05a14a4792bf78c490f12a84e12ded8501b4110000000300000000
0160 00ac71f300000009b02a4fc7ae049f786d3315efb1849d485d519ce25d2f3547
0180 3d78d3457cb0f68b0000000800000005000000010000000540f1e337d93bea9f
01a0 232f51f838c6e0c09bb7524bdb7d0c0611e5c02ff639a0310000000300000001
01c0 00ac71f30000000336773c0a0899779801c5766d552ded2350af942749f87d80
01e0 2534a5ac34846572000000040000001300ac71f300000002aa4b5899c4b62851
0200 6824c81de509f87f73a1a8f0c9f865f372bc7d116a3aab9c0000000900000001
0220 0000dead00000000000000000000000000000000000000000000000000000000
0400 e9696a2fb944eb4e3b6e43adb696c6194d685838bee859ce561a88f2ff1f9fae
0420 292dc9ba66c2c0408a360a019c168dc5ae64ed24153f01118b8bf619b470212c
0800 4534f100cefe45f6b5acb4b17eb79320eaeb20cd12ca946eec3fce66b26f9025
0820 f656b9da45329258369f145158431efd26d48cac27e3fe24c6cc91eb4a2c5c7f
0840 8dc7f12b6d4be26de473783e8a096e2ba75766e1e810ce81c36ec72a37c17661
0860 d4ebcb413a653397ce9f41b0f62a99cf3dfba2a7c6856539386fefbe667fca6e
0880 fec4dfc585eeb8f1d68e867a0abab3b8949a07fa159c99c2b9795eb643a023f4
08a0 0e50730fc028ef59d20366940a497dea546dc1a301deb540cb406d2ba9231b0e
08c0 f2e02ca2c887a44bc61debb33b7db4eb30b544ebead6ecc5151e6f400d42683a
08e0 7d43f51f03652e3c15a579d28f1ae5dc42845034e670e34be27287694555ae8b
0900 91af9a7ea50bf53b834367ba8aebf68b3c4d9be911a443c3bf57657787310393
0920 625556bb2f21cfafec8953a304573beb4adb67ce22f2507adc6dbe3128bbd059
0940 27256689d34f7c04622f5fa1672874e35fe0b8c6e5c5b6dda062969219a0a075
0960 34398245c41ce9c34bbb3f1cd78ad2c7cc667358a2df8d7849c79b48ba396e86
0980 5dad0c21d8dff204b1e5dbec55deb3057a576f3b414f2781c362a00994041f10
09a0 19acc4f6485561d02b359602c442f4b60565098780b146fba78fbb2bfbc013c5
09c0 5fa7eddc343eccb994fdd93f65cc1ea10f6682a65b3241d69d560878c6094d4d
09e0 d1f580b06932de86bbcc0cbaf0a8e7a19d8cda99bba7ea35eea2a3ea6a52d974
0a00 236cf0064646ed5b259f917d23e090905e50cefcbdf743d018965832b6740753
0a20 91e66856d158f3238398321f1522ff31cad8e0d4f6f94b0046be3495ec46a291
0a40 41f8da9d2044006b30b7793955cc0d2f300f04ffa54ab20d55dfab47de4c8e57
1000 93e19191d5428e6ffe53f41744ffdc4043b10532f8e5c12f30bf89b69bd92faa
1020 8e978b91be9764db0c4430edf74f8b1a6d4b2e9b2395da5f319dcc2ec9e304e9
1040 3e9503bd41084f706f58f15912d4688f7356c15ef4ef9e604c372371f5dfbf1f
1060 e649b7336cd2e7ec0b899a6c471003770792dcb15088c1483ca22964e2a9c14a
1080 c557856a893878a1793b2f55917d94d7b03859fc53988a309ee678fa1add0fa9
";

const LONG_KEY_ROWS: &str = "\
0000 4c554b53babe0001616573000000000000000000000000000000000000000000
0020 00000000000000007874732d706c61696e363400000000000000000000000000
0040 0000000000000000736861310000000000000000000000000000000000000000
0060 000000000000000000000004000000400969147991945cd269a8d3655c958781
0080 ff892033a7326678fefe814a2117e032181611990d3ecf76362aa45d52f8bcf2
00a0 ac10abb90000000338666638346162302d316232662d346239632d613365382d
00c0 3564316337613165306634320000000000ac71f3000000041d54a902749c03c8
00e0 1f05ed6c595fb63883c18c14bd072bb2015c0685ccfd19f40000000200000009
0100 0000dead00000000000000000000000000000000000000000000000000000000
0120 000000000000000000000000000000000000dead000000000000000000000000
0160 0000dead00000000000000000000000000000000000000000000000000000000
0180 000000000000000000000000000000000000dead000000000000000000000000
01c0 0000dead00000000000000000000000000000000000000000000000000000000
01e0 000000000000000000000000000000000000dead000000000000000000000000
0220 0000dead00000000000000000000000000000000000000000000000000000000
0400 b222da17176fe03ebe0a6f31b0a7399d9144044c3a5a741886fc0b437a4290ec
0420 25752b4ac4fd9ded45854e553aea55331a013e45943a6e92ae095c6ccf208261
0440 726d6651d9195ed61c27d0ad2591b02d617a55d0570f1996d676a1a46387743a
0460 d2bbc8200cdc2b2c7a628b46f5518b59a7ee017c84f04f9cb0e98e5ed0b68e3b
0480 80700bb3b9605d83f96fa82a8231792ce73bb7c5d01a24d4f8bcd2536f4b1ec5
04a0 f5d5d45497277470c20e29a41a2f256000fd82380c50450c838fab71c25536c9
04c0 a74cfd033bd7ac115452c2a6884f2934e95c32d1adda8f703f95be0fafb74666
04e0 5d893fcf259845b2b46ec3b3eee087ff3a82cadf66e0001225d3a7ab419b2e2f
0500 b750c4c6141cc8d44066426e11e4ca137cf9b1f35e2b397a45b6f4142fba82e7
0520 a6e6e8e613f2950a2b2001c225036f1b6e88b1cfaf1e414052d9c31b1e8f948d
0540 5be57cbbd92c43b8c8c9bdc76fea680cbdcc9c5c047f5df1c0dce54ca3c7bb98
0560 52166622c938cd1257b3e43ceedd95bcfda798ea11d3c49160396254564d2384
0580 4ee423df011ee82975f460e21ce79e4d93d7b8f2668a2a26d189c3bb1a51ef7e
05a0 31d1e4f4fdbf17018c2e98f2923567afc4203b98454aa98facfb763cbc6ce15a
05c0 edf5f836787c388bebe4acba9a8df66f0fc8023cf75d82c6f1c27f3d87fb4dd5
05e0 9c100e68fc6b3ff5ad11048ecd576c82f44ff9492586249e9115a2cd704e38ad
0600 ad61a0615fe14d57f467f5a2507d8a094fc8fb6abe735f92381f5294903a5fd1
0620 b8d264c39b350e3bc5416aed8177bb3a24440419dfeb933753c83c910125d430
";
