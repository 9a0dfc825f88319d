//! Laws of pcapng files, which hold of the definitions alone.
ghost use Rattle.std.specs.Prelude.{◌≡◌};
ghost use Rattle.pcapng.specs.Laws.{BlockIsReadFirst, FileIsRead, HeaderFaultIsTold, ShortFileIsTold};
ghost use Rattle.pcapng.specs.declared.block.TheConstants.{MAX_BLOCK_LEN};
ghost use Rattle.pcapng.specs.declared.choice.TheConstants.{MAX_NAME_LEN};
ghost use Rattle.pcapng.specs.declared.section.TheConstants.{MAX_INTERFACES};

/// A whole block at the front is read first, and then what follows it.
pub fn block_is_read_first()
    ensures { BlockIsReadFirst }
{}

/// A reader of pcap is told what is wrong with a file's first section header, and that the file ends
/// before it does.
pub fn header_fault_is_told()
    ensures wrong { HeaderFaultIsTold }
    ensures short { ShortFileIsTold }
{}

/// A reader of pcap reads a file's packets of the chosen interface, in their order, and then how the
/// file ends.
pub fn file_is_read()
    ensures { FileIsRead }
{}

/// Each bound is the number that docs/FORMATS.md states under "pcapng": of the bytes of a block that is read,
/// of a section's interfaces, and of the bytes of a name that is chosen.
pub fn bounds_are_documented()
    ensures block { MAX_BLOCK_LEN ≡ 1048576 }
    ensures interfaces { MAX_INTERFACES ≡ 256 }
    ensures name { MAX_NAME_LEN ≡ 64 }
{}
