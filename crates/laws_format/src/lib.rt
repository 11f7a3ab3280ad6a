//! The pack that formatting writes, of any shape: in what state it is, and that the record writes of formatting leave it. And a pack whose
//! second drive is prepared.
//!
//! Come here when you format a pack or prepare its second drive, or begin with a pack that was formatted: it is sound and clean, its hints
//! are true, it is read as the model without files, and all sectors after those of the system files are free. Nothing is computed over its
//! sectors: what each shows is known by its place, and all else follows from that. Of a pack whose second drive is prepared it is known
//! what it shows at each crash point, if no sector of the drive carries a page.
//!
//! Below it stands laws_hint.
//!
//! A law function is public, has an empty body and one clause, the law; its lemma has the same name, and its statement has it in
//! capitals. To cite a law: `use Rattle.laws_format.proofs.formatted.Laws.{formatted_pack_begins_a_session}`. Lemma files stand in
//! proofs/inside/, where no other crate can name them.
#![tactic(auto)]

pub mod formatted;
pub mod preparing;
