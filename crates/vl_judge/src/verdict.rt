//! The verdicts, and which judgements a frame reaches: the type keeps it.

ghost use Rattle.std.specs.Prelude.{◌≡◌, ◌≢◌};
ghost use Rattle.vl_judge.specs.Judgement.{Judgement, is_copy, is_delivered, is_excess, is_out, stopped_verdict};

use integrity::Integrity;
use policing::Policing;
use redundancy::Redundancy;
use std::marker::Model;
use vl_config::Class;

/// The verdict of a frame: its class, and what each judgement that it reached says of it.
///
/// The order is this project's profile: policing sees the frames of the class `Regular`, integrity
/// checking those within the account, and redundancy management those that integrity checking found
/// valid. The type keeps that: no other combination can be made.
#[derive(Clone, Copy, PartialEq, Eq)]
pub struct Verdict {
    /// The class.
    pub class: Class,
    /// The verdict of policing, on a regular frame.
    pub policing: Option<Policing>,
    /// The verdict of integrity checking, on a frame within its account.
    pub integrity: Option<Integrity>,
    /// The verdict of redundancy management, on a valid frame.
    pub redundancy: Option<Redundancy>,
}

impl Model for Verdict {
    ghost use Rattle.vl_judge.specs.Judgement.{Judgement, IsReached};

    ghost Value = { Judgement };

    ghost view = { λ verdict. record {
      class = verdict.class;
      policing = verdict.policing;
      integrity = verdict.integrity;
      redundancy = verdict.redundancy;
    } };

    ghost inverse = { λ judgement. record {
      class = judgement.class;
      policing = judgement.policing;
      integrity = judgement.integrity;
      redundancy = judgement.redundancy;
    } };

    ghost invariant = { λ verdict. IsReached (record {
      class = verdict.class;
      policing = verdict.policing;
      integrity = verdict.integrity;
      redundancy = verdict.redundancy;
    }) };
}

impl Verdict {
    /// The verdict of a frame that no judgement sees.
    #[inline(always)]
    pub(crate) fn stopped(class: Class) -> Verdict
        requires { class ≢ Class.Regular }
        ensures { result ≡ stopped_verdict class }
    {
        Verdict {
            class,
            policing: None,
            integrity: None,
            redundancy: None,
        }
    }

    /// Does policing drop the frame?
    #[inline(always)]
    pub fn is_excess(&self) -> bool
        ensures { result ≡ is_excess self.now }
    {
        matches!(self.policing, Some(Policing::Excess))
    }

    /// Does integrity checking drop the frame?
    #[inline(always)]
    pub fn is_out(&self) -> bool
        ensures { result ≡ is_out self.now }
    {
        matches!(self.integrity, Some(Integrity::Out))
    }

    /// Is the frame the second of a pair?
    #[inline(always)]
    pub fn is_copy(&self) -> bool
        ensures { result ≡ is_copy self.now }
    {
        matches!(self.redundancy, Some(Redundancy::Copy))
    }

    /// Is the frame delivered?
    #[inline(always)]
    pub fn is_delivered(&self) -> bool
        ensures { result ≡ is_delivered self.now }
    {
        match self.redundancy {
            Some(redundancy) => redundancy.is_delivered(),
            None => false,
        }
    }
}
