//! The usage text.

ghost use Rattle.std.specs.Prelude.{◌≡◌, ◌≤◌, length};
ghost use Rattle.luks_report.specs.Texts.{usage_text};

const USAGE: &str = "\
usage: luksrd isLuks [--header FILE] IMAGE
       luksrd luksUUID [--header FILE] IMAGE
       luksrd luksDump [--header FILE] IMAGE
       luksrd luksCheck [--header FILE] IMAGE
       luksrd testPassphrase --key-file FILE [--key-slot N] [--max-iterations N] \
       [--header FILE] IMAGE
       luksrd luksCat --key-file FILE [--key-slot N] [--max-iterations N] [--header FILE] IMAGE
       luksrd afSplit --hash HASH --stripes N --random FILE KEY
       luksrd afMerge --hash HASH --stripes N --key-bytes N STRIPES
";

/// The usage text: one line for each command. It is printed if the arguments are not a luksrd
/// command.
#[tactic(auto, unfolding(crate::specs::Texts::usage_text))]
pub fn usage() -> &'static str
    ensures value { result.now ≡ usage_text }
    ensures short { length result.now ≤ 1000 }
{
    USAGE
}
