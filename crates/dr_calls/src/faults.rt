//! The names of faults.

use dr_bytes::VarintFault;
use dr_case_lines::Broken;
use dr_compact::CompactFault;
use dr_file::FileFault;
use dr_json::RecordProblem;
use dr_lines::LineFault;
use dr_meta::MetaFault;
use dr_page::PageFault;
use dr_plain::{PickFault, PlainFault};
use std::alloc::Global;

/// Why bytes begin with no number.
pub fn varint_name(fault: VarintFault) -> &'static str {
    match fault {
        VarintFault::Short => "Short",
        VarintFault::TooLong => "TooLong",
    }
}

/// Why bytes have no values.
pub fn plain_name(fault: PlainFault) -> &'static str {
    match fault {
        PlainFault::NoMemory => "NoMemory",
        PlainFault::Short => "Short",
        PlainFault::BadText => "BadText",
    }
}

/// Why a dictionary has no values at some indices.
pub fn pick_name(fault: PickFault) -> &'static str {
    match fault {
        PickFault::NoMemory => "NoMemory",
        PickFault::BadIndex => "BadIndex",
    }
}

/// Why a page gives no triplets.
pub fn page_name(fault: PageFault) -> &'static str {
    match fault {
        PageFault::NoMemory => "NoMemory",
        PageFault::BadData => "BadData",
    }
}

/// Why bytes begin with no struct.
pub fn compact_name(fault: CompactFault) -> &'static str {
    match fault {
        CompactFault::NoMemory => "NoMemory",
        CompactFault::Malformed => "Malformed",
        CompactFault::TooDeep => "TooDeep",
    }
}

/// Why no line comes.
pub fn line_name(fault: LineFault) -> &'static str {
    match fault {
        LineFault::TooLong => "TooLong",
        LineFault::ReadFault => "ReadFault",
    }
}

/// Why a line is no record.
pub fn record_name(problem: RecordProblem) -> &'static str {
    match problem {
        RecordProblem::NotJson => "NotJson",
        RecordProblem::UnknownField => "UnknownField",
        RecordProblem::MissingField => "MissingField",
        RecordProblem::WrongKind => "WrongKind",
        RecordProblem::OutOfRange => "OutOfRange",
        RecordProblem::NullElement => "NullElement",
        RecordProblem::TooLarge => "TooLarge",
    }
}

/// The line of why a struct is no metadata.
pub fn meta_line(alloc: Global, fault: MetaFault) -> Result<String, Broken> {
    match fault {
        MetaFault::NoMemory => Err(Broken::NoMemory),
        MetaFault::Missing(field) => Ok(format!(in alloc; "Missing({field})\n")?),
        MetaFault::Range(field) => Ok(format!(in alloc; "Range({field})\n")?),
    }
}

/// The line of why a file gives nothing.
pub fn file_line(alloc: Global, fault: FileFault) -> Result<String, Broken> {
    match fault {
        FileFault::NoMemory => Err(Broken::NoMemory),
        FileFault::Why(cause) => Ok(format!(in alloc; "{}\n", cause.name())?),
    }
}
