//! `afSplit` and `afMerge`: keys, and the stripes that they are split into.

ghost use Rattle.std.specs.Prelude.{◌≡◌, ◌<◌, ◌⊎◌, ◌+◌, List, ℕ, Option, length};
ghost use Rattle.luks_io.specs.Devices.{Appended, ConsumedExactly, IfKnown};
ghost use Rattle.luks_io.specs.Counts.{Reads, Writes};
ghost use Rattle.luks_runs.specs.Run.{ConsumedNothing, RunMatches, AnyPromptness, result_message};
ghost use Rattle.luks_runs.specs.Run.{is_run_read_failure, is_run_write_failure};
ghost use Rattle.luks_runs.specs.RunMessages.{MergeMessage, SplitMessage};
ghost use Rattle.luks_runs.specs.Stripe.{IsKeyLen, max_key_len, merge_outcome, split_outcome};
ghost use Rattle.luks_runs.specs.Stripe.{ReadsForSplit, is_few, PromptSplit};

use luks_io::sink::{Sink, put_all};
use luks_io::source::{Source, fill};
use luks_kdf::AfSplitter;
use luks_report::message::Message;
use luks_request::command::{MergeArgs, SplitArgs};

/// The length of the longest key.
const MAX_KEY_LEN: usize = 512;

/// `afSplit`: writes the stripes of the key in the first source, the random ones first.
pub fn split<K: Source, R: Source, O: Sink>(
    split_args: &SplitArgs<'_>,
    key: &mut K,
    random: &mut R,
    out: &mut O,
) -> Result<(), Message>
    ensures run { IfKnown (K.to_come key.old)
        (λ known. IfKnown (R.to_come random.old) (λ bytes.
        RunMatches (PromptSplit (length known))
        (split_outcome split_args.now.hash split_args.now.stripes.count known bytes)
        (result_message result)
        (ConsumedExactly known (K.to_come key.new)) (ConsumedExactly bytes (R.to_come random.new))
        (Appended (O.written out.old) (O.written out.new)))) }
    ensures only { SplitMessage (result_message result) }
    ensures unneeded { IfKnown (K.to_come key.old) (λ known.
        (length known ≡ 0) ⊎ (max_key_len < length known) → random.new ≡ random.old) }
    ensures reads { ReadsForSplit (result_message result) (K.counts key.old) (K.counts key.new)
        (R.counts random.old) (R.counts random.new) }
    ensures writes { Writes (is_run_write_failure (result_message result))
        (O.counts out.old) (O.counts out.new) }
{
    // (one byte more, so that a longer key is refused and not cut)
    let mut key_buf = [0; MAX_KEY_LEN + 1];
    let len = fill(key, &mut key_buf)?;
    if len == 0 || len > MAX_KEY_LEN {
        return Err(Message::KeyLength);
    }
    split_key(split_args, &key_buf[..len], random, out)
}

/// Writes the stripes of a key, the random ones first.
fn split_key<R: Source, O: Sink>(
    split_args: &SplitArgs<'_>,
    key: &[u8],
    random: &mut R,
    out: &mut O,
) -> Result<(), Message>
    requires { IsKeyLen (length key.now) }
    ensures run { (left : Option (List ℕ)) → ConsumedExactly key.now left (length key.now)
        → IfKnown (R.to_come random.old) (λ bytes.
        RunMatches (PromptSplit (length key.now))
        (split_outcome split_args.now.hash split_args.now.stripes.count key.now bytes)
        (result_message result) (ConsumedExactly key.now left) (ConsumedExactly bytes
        (R.to_come random.new))
        (Appended (O.written out.old) (O.written out.new))) }
    ensures only { SplitMessage (result_message result) }
    ensures reads { Reads (is_run_read_failure (result_message result))
        (is_few (result_message result)) (R.counts random.old) (R.counts random.new) }
    ensures writes { Writes (is_run_write_failure (result_message result))
        (O.counts out.old) (O.counts out.new) }
{
    let mut block_buf = [0; MAX_KEY_LEN];
    let block = &mut block_buf[..key.len()];
    let mut splitter = AfSplitter::new(split_args.hash, key.len());
    'stripes: for _ in 0..split_args.stripes.get() - 1 {
        if fill(random, block)? < key.len() {
            return Err(Message::FewRandomBytes);
        }
        // (as soon as it is whole)
        put_all(out, block)?;
        splitter.stripe(block);
    }
    splitter.last(key, block);
    put_all(out, block)?;
    Ok(())
}

/// `afMerge`: writes the key of the first stripes of the source.
pub fn merge<S: Source, O: Sink>(
    merge_args: &MergeArgs<'_>,
    stripes: &mut S,
    out: &mut O,
) -> Result<(), Message>
    ensures run { IfKnown (S.to_come stripes.old) (λ known. let m = merge_args.now in
        RunMatches AnyPromptness (merge_outcome m.hash m.stripes.count m.key_bytes.bytes known)
        (result_message result) (ConsumedExactly known (S.to_come stripes.new)) ConsumedNothing
        (Appended (O.written out.old) (O.written out.new))) }
    ensures only { MergeMessage (result_message result) }
    ensures reads_first { result_message result ≡ Message.ReadFailed → out.new ≡ out.old }
    ensures reads { Reads (is_run_read_failure (result_message result))
        (is_few (result_message result)) (S.counts stripes.old) (S.counts stripes.new) }
    ensures writes { Writes (is_run_write_failure (result_message result))
        (O.counts out.old) (O.counts out.new) }
{
    let len = merge_args.key_bytes.get();
    let mut stripe_buf = [0; MAX_KEY_LEN];
    let mut key_buf = [0; MAX_KEY_LEN];
    let stripe = &mut stripe_buf[..len];
    let key = &mut key_buf[..len];
    let mut splitter = AfSplitter::new(merge_args.hash, len);
    'stripes: for _ in 0..merge_args.stripes.get() - 1 {
        if fill(stripes, stripe)? < len {
            return Err(Message::FewStripes);
        }
        splitter.stripe(stripe);
    }
    if fill(stripes, stripe)? < len {
        return Err(Message::FewStripes);
    }
    splitter.last(stripe, key);
    put_all(out, key)?;
    Ok(())
}
