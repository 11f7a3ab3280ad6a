//! What a session means: definitions alone.
//!
//! Come here when you write a line or a call on a session, or doubt what its reply is to be.
//!
//! Below it stand alto_words, disk_records, pack_model, exec_words and world_model. It has no function. The contracts of the session's
//! calls cite these definitions; the laws over them stand above.
//! They read upwards. What an operand means is found in a model (`Finding`); streams keep bytes that aren't written yet (`Streams`);
//! beside its files a session has a *world* (`Worlds`). A line wants something of each of its operands (`Operands`); it is refused for the
//! first of a list of reasons (`Refusals`), or it has an effect: operations, a text, another world (`Effects`); so each line has one reply
//! (`Replies`), and touches the files whose hints may be followed for it (`Touched`). A line, a text that was answered without the session,
//! or the end of the keys is a *turn* of one of three kinds (`Turning`), and a session is a list of turns, each from the pack and the state
//! that the one before it left (`Histories`).
//! What a session keeps is right for a pack (`Keeping`), a call on it makes a turn (`Answering`), and opening, the end and all of a session
//! are said by these (`Opening`, `Ending`). docs/model.md tells them in plain words.
//! Not said: how long anything takes, and when memory is left.
#![tactic(auto)]
