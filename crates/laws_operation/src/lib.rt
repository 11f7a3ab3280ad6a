//! Each operation: what to know, what to write, what is true at each crash point and afterwards.
//!
//! Come here when you write a call that does an operation: six columns of docs/laws.md's table, from `words fit` to `names, places`, are
//! laws of this crate, the other six of its neighbours.
//!
//! One module an operation has its laws: the words that it writes, as pack_model defines them, are the ones that its record writes need, by
//! what a calling program is to know (`words_fit`); all of them do to a whole and tidy pack what the operation is to do, at every crash
//! point (`carries_out`); links and addresses in entries that were true are true again once it is done (`keeps_links`), and no page is
//! carried twice on the way (`carries_once`); and it says which sectors are free afterwards, and which names and places stay.
//!
//! The other modules have what several operations share, and what a calling program has to know before it writes: places, lengths, entries,
//! names and free sectors. Which files live, where their pages are and where they end follows, on a whole pack, from which sector carries
//! which page and from the counts of labels. The slots of a directory in the model are, on a tidy pack, those of its words; no law here
//! leads from the values of pages to these words, or to a file's bytes: those are in laws_contents, below. Entries, names and free sectors
//! are said of any pack.
//!
//! A law function is public, has an empty body and one clause, the law; its lemma has the same name, and its statement has it in
//! capitals. To cite a law: `use Rattle.laws_operation.proofs.cut.Laws.{cut_carries_once}`. Lemma files right in proofs/ are cited
//! by other crates too; those in proofs/inside/ no other crate can name.
#![tactic(auto)]

pub mod cut;
pub mod descriptor;
pub mod drop;
pub mod enter;
pub mod entries;
pub mod grow;
pub mod leave;
pub mod lengths;
pub mod links;
pub mod make;
pub mod places;
pub mod put;
pub mod stamp;
pub mod title;
pub mod values;
pub mod widen;
