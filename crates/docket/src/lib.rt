//! Dockets: CSV rows are read as names, an instance, a sheet and a journal, and written back.
//!
//! A docket is read exactly: the result means what the rows say, and the reported fault is the docket's first fault.
//!
//! Only tests refuse the following wrong bodies. One always answers `Memory` or a device's fault (`Read`, `Write`).
//! One reports an interrupted read as a fault. One reports that csv is out of memory as a device's fault. One reads
//! on past the limit on records, and one has other texts of faults.
#![tactic(auto)]

mod declarations;
mod docket;
mod fault;
mod file_fault;
mod kinds;
mod part;
mod parts;
mod passes;
mod programme_lists;
mod read;
mod reading;
mod records_fault;
mod store;
mod vocabulary;
mod words;
mod write;

pub use crate::docket::{ByWorker, Docket, Journal};
pub use fault::DocketFault;
pub use file_fault::FileFault;
pub use part::Part;
pub use parts::{read_parts, read_parts_with_lists};
pub use programme_lists::ProgrammeLists;
pub use read::{
    read_docket, read_docket_with_lists, read_docket_with_lists_within, read_docket_within,
};
pub use records::{RowWriter, WriteFailed};
pub use records_fault::{FaultWithin, RecordsFault};
pub use vocabulary::{capacity_of, law_constants, most_listed, most_records};
pub use write::journal::{push_journal, write_journal};
pub use write::room_for_rows;
pub use write::sheet::{push_programme, push_sheet, write_sheet};
