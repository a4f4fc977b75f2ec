// What the two programs print, as bytes in a lent page. The programs themselves only read, lend the pages and write.
//
//   schedules   the lines of a listing
//   lister      a listing, page by page
//   answers     the codes that a run reads, and its lines
//   runner      a run on one page
//   refused     the line of a refusal
#![tactic(auto)]

pub mod answers;
pub mod lister;
pub mod refused;
pub mod runner;
pub mod schedules;
