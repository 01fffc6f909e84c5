//! Requests to luksrd.

ghost use Rattle.std.specs.Prelude.{◌≡◌, option_map};
ghost use Rattle.luks_request.specs.Request.{header_file_of, image_of, has_header_file};
ghost use Rattle.luks_request.specs.Request.{is_standard};
ghost use Rattle.luks_request.specs.Request.{reuses_stdin, request_of, secret_of};

use crate::number::{KeyBytes, StripeCount};
use luks_kdf::Hash;
pub use luks_open::allowed::SlotChoice;

/// A request to luksrd. The texts are those of the arguments; an input named `-` is standard input.
#[derive(Clone, Copy, PartialEq, Eq, Debug)]
pub enum Command<'a> {
    /// `isLuks`: reports whether the image has a LUKS header.
    IsLuks(HeaderArgs<'a>),
    /// `luksUUID`: prints the UUID of the header.
    LuksUuid(HeaderArgs<'a>),
    /// `luksDump`: prints the header.
    LuksDump(HeaderArgs<'a>),
    /// `luksCheck`: prints what is wrong with the header.
    LuksCheck(HeaderArgs<'a>),
    /// `testPassphrase`: prints the key slot that the passphrase opens.
    TestPassphrase(VolumeArgs<'a>),
    /// `luksCat`: writes the decrypted sectors.
    LuksCat(VolumeArgs<'a>),
    /// `afSplit`: writes a key as stripes.
    AfSplit(SplitArgs<'a>),
    /// `afMerge`: writes the key that the stripes merge to.
    AfMerge(MergeArgs<'a>),
}

/// A header to be read.
#[derive(Clone, Copy, PartialEq, Eq, Debug)]
pub struct HeaderArgs<'a> {
    /// The name of the input with the volume.
    pub image: &'a str,
    /// The name of the file with the header, if that is detached.
    pub header: Option<&'a str>,
}

/// A volume to be opened.
#[derive(Clone, Copy, PartialEq, Eq, Debug)]
pub struct VolumeArgs<'a> {
    /// The name of the input with the volume.
    pub image: &'a str,
    /// The name of the file with the header, if that is detached.
    pub header: Option<&'a str>,
    /// The name of the input with the passphrase.
    pub key_file: &'a str,
    /// The key slots that may be tried.
    pub slots: SlotChoice,
}

/// A key to be split into stripes.
#[derive(Clone, Copy, PartialEq, Eq, Debug)]
pub struct SplitArgs<'a> {
    /// The hash function of the diffusion.
    pub hash: Hash,
    /// How many stripes are made.
    pub stripes: StripeCount,
    /// The name of the input with the random bytes.
    pub random: &'a str,
    /// The name of the input with the key.
    pub key: &'a str,
}

/// Stripes to be merged into their key.
#[derive(Clone, Copy, PartialEq, Eq, Debug)]
pub struct MergeArgs<'a> {
    /// The hash function of the diffusion.
    pub hash: Hash,
    /// How many stripes there are.
    pub stripes: StripeCount,
    /// The length of the key, and of each stripe.
    pub key_bytes: KeyBytes,
    /// The name of the input with the stripes.
    pub stripes_file: &'a str,
}

impl<'a> Command<'a> {
    /// The name of the first input: IMAGE, KEY or STRIPES.
    pub fn image(&self) -> &'a str
        ensures { result.now ≡ image_of (request_of self.now) }
    {
        match self {
            Command::IsLuks(header_args) => header_args.image,
            Command::LuksUuid(header_args) => header_args.image,
            Command::LuksDump(header_args) => header_args.image,
            Command::LuksCheck(header_args) => header_args.image,
            Command::TestPassphrase(volume_args) => volume_args.image,
            Command::LuksCat(volume_args) => volume_args.image,
            Command::AfSplit(split_args) => split_args.key,
            Command::AfMerge(merge_args) => merge_args.stripes_file,
        }
    }

    /// The name of the file with the header, if that is detached.
    pub fn header(&self) -> Option<&'a str>
        ensures { option_map (λ input. input.now) result ≡ header_file_of (request_of self.now) }
    {
        match self {
            Command::IsLuks(header_args) => header_args.header,
            Command::LuksUuid(header_args) => header_args.header,
            Command::LuksDump(header_args) => header_args.header,
            Command::LuksCheck(header_args) => header_args.header,
            Command::TestPassphrase(volume_args) => volume_args.header,
            Command::LuksCat(volume_args) => volume_args.header,
            Command::AfSplit(_) => None,
            Command::AfMerge(_) => None,
        }
    }

    /// Whether the header is detached: in another file than the image.
    pub fn is_detached(&self) -> bool
        ensures { result ≡ has_header_file (request_of self.now) }
    {
        self.header().is_some()
    }

    /// The name of the second input, if there is one: FILE of `--key-file` or `--random`.
    pub fn secret(&self) -> Option<&'a str>
        ensures { option_map (λ input. input.now) result ≡ secret_of (request_of self.now) }
    {
        match self {
            Command::TestPassphrase(volume_args) => Some(volume_args.key_file),
            Command::LuksCat(volume_args) => Some(volume_args.key_file),
            Command::AfSplit(split_args) => Some(split_args.random),
            _ => None,
        }
    }

    /// Whether at least two of the given inputs are standard input, which can be read only once.
    pub fn reuses_stdin(&self) -> bool
        ensures { result ≡ reuses_stdin (request_of self.now) }
    {
        let image = is_standard(Some(self.image()));
        let header = is_standard(self.header());
        let secret = is_standard(self.secret());
        (image && header) || (image && secret) || (header && secret)
    }
}

// Whether the input is given and is standard input.
fn is_standard(input: Option<&str>) -> bool
    ensures { result ≡ is_standard (option_map (λ name. name.now) input.entry) }
{
    input == Some("-")
}
