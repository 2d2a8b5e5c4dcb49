//! A whole report in one call, over memory: what is behind the door for C that plays a whole session.
//!
//! Nothing here knows of C: `vemiktag_c` has the exported function.
#![tactic(auto)]

mod reports;
mod streams;

pub use reports::{
    DONE, OUT_OF_MEMORY, Report, ReportFault, SOME_REFUSED, TOO_LONG, TOO_SMALL, report_into,
    session_report,
};
