//! The buffer of a search.

ghost use Rattle.std.specs.Prelude.{◌≡◌, ◌+◌, ◌-◌, ◌≤◌, IfOk, drop, is_err, length, min, take};
ghost use Rattle.luks_io.specs.Counts.{got_in};
ghost use Rattle.luks_io.specs.Devices.{ConsumedInto, IfKnown, counted};

use luks_io::source::{ReadFault, Source, fill};

/// Moves the bytes from `start` to `end` to the front, fills the rest of the buffer with the next
/// bytes of the source, and returns how many there were.
pub(crate) fn refill<S: Source>(
    buffer: &mut [u8],
    start: usize,
    end: usize,
    source: &mut S,
) -> Result<usize, ReadFault>
    requires order { start ≤ end }
    requires within { end ≤ length buffer.old }
    ensures kept { take (end - start) buffer.new ≡ drop start (take end buffer.old) }
    ensures bound { (end - start) + got_in result ≤ length buffer.old }
    ensures bytes { IfKnown (S.to_come source.old) (λ known.
        ConsumedInto known (S.to_come source.new) (drop (end - start) buffer.new) (got_in result)) }
    ensures end { IfOk result (λ count. IfKnown (S.to_come source.old)
        (λ known. count ≡ min (length buffer.old - (end - start)) (length known))) }
    ensures failures { (S.counts source.new).failures
        ≡ counted (is_err result) (S.counts source.old).failures }
{
    let kept = end - start;
    buffer.copy_within(start..end, 0);
    fill(source, &mut buffer[kept..])
}
