// Why a call on a table is refused; the table is then as before. Each enum lists its numbers itself: a number is read off by a
// cast, which a trait over the four could not do for them, so a trait would only add lines.
pub mod answer;
pub mod lead;
pub mod show;
pub mod withdraw;

pub use answer::AnswerRefusal;
pub use lead::LeadRefusal;
pub use show::ShowRefusal;
pub use withdraw::WithdrawRefusal;
