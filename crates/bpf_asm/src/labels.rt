//! A jump is written by a label and packed by a distance. Here the one becomes the other.

ghost use Rattle.std.specs.Prelude.{◌≡◌, ◌≤◌, List, length, map, Some, None, IfOk, IfErr};
ghost use Rattle.bpf_isa.specs.declared.state.TheConstants.{MAX_INSNS};
ghost use Rattle.bpf_text.specs.Meaning.{statement_of};
ghost use Rattle.bpf_text.specs.Grammar.{Statement as Stated};
ghost use Rattle.bpf_asm.specs.Assembly.{HasDistinctLabels, IsAtDistance, IsFirstTwice, IsNear};
ghost use Rattle.bpf_asm.specs.Assembly.{near_fault, target_fault};
ghost use Rattle.bpf_asm.specs.Typed.{IsLabelFault};

use crate::fault::AsmFault;
use bpf_text::Statement;
use indexmap::IndexMap;
use std::alloc::Global;

/// The labels of a text's statements, none of which stands twice.
#[derive(Drop)]
pub struct Labels<'a> {
    indices: IndexMap<&'a str, u32>,
}

impl<'a> Labels<'a> {
    ghost use Rattle.bpf_asm.specs.Typed.{Knows};

    /// The labels of these statements, or the first that stood before.
    #[tactic(auto, using(crate::proofs::Indices::progress_same, crate::proofs::Indices::progress_more))]
    pub fn new(alloc: Global, statements: &[Statement<'a>]) -> Result<Labels<'a>, AsmFault>
        requires { length statements.now ≤ MAX_INSNS }
        ensures knows { IfOk result (λ labels.
            Knows labels.indices.entries (map statement_of statements.now)) }
        ensures distinct { IfOk result (λ _.
            HasDistinctLabels (map statement_of statements.now)) }
        ensures fault { IfErr result (IsLabelFault (map statement_of statements.now)) }
    {
        let mut indices = IndexMap::new(alloc);
        for (at, statement) in statements.iter().enumerate() {
            if let Some(name) = statement.label {
                if indices.insert(name, at as u32)?.is_some() {
                    return Err(AsmFault::TwiceLabel { at });
                }
            }
        }
        Ok(Labels { indices })
    }

    /// How many statements a jump at the index skips to the label.
    pub fn distance(&self, at: usize, name: &str) -> Result<u32, AsmFault>
        ensures distance { IfOk result (λ distance. (ss : List Stated) →
            Knows self.now.indices.entries ss → IsAtDistance ss at name.now distance) }
        ensures fault { IfErr result (λ fault. (ss : List Stated) →
            Knows self.now.indices.entries ss → target_fault ss at name.now ≡ Some fault) }
    {
        let Some(index) = self.indices.get(name) else {
            return Err(AsmFault::NoLabel { at });
        };
        let index = *index as usize;
        if index <= at {
            return Err(AsmFault::Backward { at });
        }
        Ok((index - at - 1) as u32)
    }

    /// The same for a conditional jump, which skips at most 255.
    pub fn near(&self, at: usize, name: &str) -> Result<u8, AsmFault>
        ensures distance { IfOk result (λ distance. (ss : List Stated) →
            Knows self.now.indices.entries ss → IsNear ss at name.now distance) }
        ensures fault { IfErr result (λ fault. (ss : List Stated) →
            Knows self.now.indices.entries ss → near_fault ss at name.now ≡ Some fault) }
    {
        let distance = self.distance(at, name)?;
        if distance > u8::MAX as u32 {
            return Err(AsmFault::TooFar { at });
        }
        Ok(distance as u8)
    }
}
