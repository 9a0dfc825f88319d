//! The words of the ledger, each with the space before it.
ghost use Rattle.std.specs.Prelude.{◌≡◌, ◌≤◌, length};
ghost use Rattle.verdict_ledger.specs.declared.words.TheConstants.{VERDICT};
ghost use Rattle.afdx_frame.specs.Frame.{network_letter};
ghost use Rattle.verdict_ledger.specs.Text.{word_field, verdict_text};

use afdx_frame::Network;
use integrity::Integrity;
use redundancy::Redundancy;
use vl_config::Class;
use vl_judge::Verdict;

/// The word of a network.
#[inline]
pub fn network_field(network: Network) -> &'static str
    ensures { result.now ≡ word_field (network_letter network) }
{
    match network {
        Network::A => " A",
        Network::B => " B",
    }
}

/// The most bytes of the words of a verdict: those of " regular within first deliver".
pub const VERDICT: usize = 29;

/// The words of a verdict: of its class, of policing, of integrity checking and of redundancy management,
/// with a dash for each that the frame didn't reach.
#[inline(always)]
pub fn verdict_field(verdict: &Verdict) -> &'static str
    ensures words { result.now ≡ verdict_text verdict.now }
    ensures short { length result.now ≤ VERDICT }
{
    match verdict.class {
        Class::Cut => " cut - - -",
        Class::Runt => " runt - - -",
        Class::Oversize => " oversize - - -",
        Class::Foreign => " foreign - - -",
        Class::Unconfigured => " unconfigured - - -",
        Class::TooLong => " toolong - - -",
        Class::Regular => regular_field(verdict),
    }
}

/// The words of the verdict of a regular frame.
#[inline(always)]
fn regular_field(verdict: &Verdict) -> &'static str
    requires { verdict.now.class ≡ Class.Regular }
    ensures words { result.now ≡ verdict_text verdict.now }
    ensures short { length result.now ≤ VERDICT }
{
    match (verdict.integrity, verdict.redundancy) {
        (None, _) => " regular excess - -",
        (Some(Integrity::Out), _) => " regular within out -",
        (Some(Integrity::First), Some(Redundancy::Deliver)) => " regular within first deliver",
        (Some(Integrity::First), Some(Redundancy::Copy)) => " regular within first copy",
        (Some(Integrity::First), _) => " regular within first both",
        (Some(Integrity::Reset), Some(Redundancy::Deliver)) => " regular within reset deliver",
        (Some(Integrity::Reset), Some(Redundancy::Copy)) => " regular within reset copy",
        (Some(Integrity::Reset), _) => " regular within reset both",
        (Some(Integrity::Next), Some(Redundancy::Deliver)) => " regular within next deliver",
        (Some(Integrity::Next), Some(Redundancy::Copy)) => " regular within next copy",
        (Some(Integrity::Next), _) => " regular within next both",
        (Some(Integrity::Skip), Some(Redundancy::Deliver)) => " regular within skip deliver",
        (Some(Integrity::Skip), Some(Redundancy::Copy)) => " regular within skip copy",
        (Some(Integrity::Skip), _) => " regular within skip both",
        (Some(Integrity::Off), Some(Redundancy::Deliver)) => " regular within off deliver",
        (Some(Integrity::Off), Some(Redundancy::Copy)) => " regular within off copy",
        (Some(Integrity::Off), _) => " regular within off both",
    }
}
