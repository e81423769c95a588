// The leg numbers that an overlay holds marks for.
ghost use Rattle.std.specs.Prelude.{◌≡◌};
ghost use Rattle.overlay.specs.Marks.{unless, markable};

use network::refusal::Refusal;

// Refuses a leg number past 511.
pub(crate) fn in_range(number: u16) -> Result<(), Refusal>
    ensures { result ≡ unless (markable number) tt }
{
    if number >= 512 {
        return Err(Refusal::OverlayOutOfRange);
    }
    Ok(())
}
