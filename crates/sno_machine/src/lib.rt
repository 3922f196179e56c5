//! The matcher: a pattern is compiled to nodes, and the nodes are run.
//!
//! [`compile`] makes a [`Code`] of a pattern and of the definitions that it may refer to. [`Code::first`] returns exactly what
//! the definitions of `sno_pattern` say of a match: `outcome` of its `specs/Outcome.antt`. A match that takes more trials than
//! its limit is refused, and so is one that runs out of memory.
//!
//! # Nodes
//!
//! A node has an operation, a successor (`next`) and another node (`other`), each named by its number. Below, an arrow to the
//! right is `next`, and one down is `other`, a node that is left as a choice. Each drawing shows the nodes of a pattern, and
//! where they go on to the right.
//!
//! ```text
//! 'a'              'a' ──>                        a primitive with at most one end: it costs a trial; if it matches, `next`;
//!                                                if not, the match backs up
//!
//! P Q              P ──> Q ──>                    no node of its own
//!
//! ANY('ab') 'c'    Row ANY('ab') ──> 'c' ──>      both take exactly one character: the step goes on through the primitives after
//!                                                the first as long as they do, one trial each, and backs up at the first that fails
//!
//! P | Q            Fork ──> P ──>                 the choice is Q, which goes on to the same node as P. If P begins with a primitive
//!                    └────> Q ──┘                with at most one end, that is tried at once; if it fails, no choice is left
//!
//! 'a' P | Q        Fork 'a' ──> P ──>             the branch itself tries a literal of one character: `next` is the node after the
//!                    └────────> Q ──┘             literal. Repeat and Further do so too, also with RPOS
//!
//! 'a' *D P | Q     Fork 'a' ──> Call D ──> P ──>  if Call is that node, the branch goes through it in the same step
//!                    └───────────────────> Q ──┘
//!
//! ARBNO(P)         Repeat ──────────────────>     no round; the choice is a round, which comes back
//!                  ^  └──> Mark ──> P ──> Moved
//!                  └──────────────────────┘       Moved backs up if the round took no character
//!
//! ARBNO('a' P)     Repeat ──>                     the part takes a character wherever it ends: a round needs no mark
//!                  ^  └──> 'a' ──> P ┐
//!                  └─────────────────┘
//!
//! ARBNO('a') 'b'   Repeat ──>                     the part takes exactly one character, or is two primitives: after a
//!                     └──> 'a' ──> Rounds ──>     round, Rounds goes over further ones up to the first cursor at which
//!                           ^         │           'b' or RPOS matches, or the part fails
//!                           └─────────┘
//!
//! ARBNO(BREAK('a'))  Repeat ──>                   the part is a primitive with at most one end that may take no character: one node does
//!                  └──> Round ──>                 what Mark, the primitive, Moved and Repeat do, and is its own choice
//!
//! ARB 'a'          Seek ──> 'a' ──>               what follows ARB begins with a few known characters: one node finds the first end
//!                                                 before one of them, and is its own choice for the ends past it
//! ARB . V 'a'      Mark ──> SeekMarked ──> Later V ──> 'a' ──>
//!
//! P . V            Mark ──> P ──> Later V ──>     what is past the mark is put after the pending assignments
//! P $ V            Mark ──> P ──> Now V ──>       .. or is assigned at once
//! SPAN('a') . V    MarkSingle ──> Later V ──>     a primitive with at most one end: the first node does what both do, and goes on past
//!                                                the second; also with `$`
//! (ANY('ab') 'c') . V
//!                  MarkRow ──> Row ANY('ab') ──> 'c' ──> Later V ──>
//!                                                the first node goes through such a row and on past `Later`; also with `$`
//!
//! *D               Call D ──>                     the nodes of D (`other` is the first), with a frame that says what comes after it
//! *D               Jump D                         if nothing comes after it in the definition that refers to it: the nodes of D without
//!                                                a frame, since what comes after D is what comes after that definition
//!  D's body        P ──> Return                   what comes after it; a literal of one character that comes last goes back itself
//!
//! BAL              BAL ──>                        the first end; the choice is the further ends
//!                   └──> Further ──>              the next one; the choice is those past it
//!
//! FENCE            FENCE ──>                      the choice is that the whole match fails
//!                    └──> Halt
//! ```
//!
//! The pattern itself ends in `Return` too: outside all frames, that is the success of the match. Nodes are written from the last to
//! the first, so a successor has its number before it is named. Only a round has to come back to a node that was written before it:
//! `Repeat` is written without a round, and gets the number of its round once that is written. A reference is written before its
//! definition, and only definitions that are referred to are written. So once all nodes are written, each reference gets the number
//! of the first node of its definition (`other`).
//!
//! # The history
//!
//! What can still be taken back is in one list of entries, the history. A [`Place`](run::entries::Place) of a match has
//!
//! - the next node;
//! - the cursor;
//! - two numbers, which name the list of frames and the list of pending assignments;
//! - how many references deep the match may still go.
//!
//! A list is named by the number of entries at the time when its first one was added. So the list is there as long as that
//! entry is, and lists share what is below. An entry is
//!
//! - a choice: a place at which the match goes on when it backs up;
//! - a frame: the node after a reference, and how many references deep the match may go from there;
//! - a mark: the cursor at which a part began;
//! - a pending assignment: the variable, and the two cursors of its part.
//!
//! The newest entries are dropped until a choice is met, and what the choice names is below it. So to back up is to drop, and
//! nothing else has to be undone. Immediate assignments aren't in the history: they stay when the match backs up.
//!
//! # One match, step by step
//!
//! `ARBNO('a') . X 'b'` from cursor 0 of `ab`. Its nodes, with `next` and, if it is named, `other`:
//!
//! ```text
//! 2 last 'b' → 1    3 Later X → 2    4 Repeat → 3, 5    5 'a' → 4    6 Mark → 4    (0 Halt, 1 Return)
//! ```
//!
//! ```text
//! node  cursor  the history after the step, the newest entry last     what happened
//! 6     0       mark 0                                                X begins at 0
//! 4     0       mark 0, choice 5 at 0                                 no round; a round is left as a choice
//! 3     0       mark 0, choice 5 at 0, pending X 0-0                  X would be the null string
//! 2     0       mark 0                                                a trial: there is no `b` at 0, and the choice is taken up
//! 5     0       mark 0                                                a trial: `a`, and the cursor is 1
//! 4     1       mark 0, choice 5 at 1                                 no further round; one is left as a choice
//! 3     1       mark 0, choice 5 at 1, pending X 0-1                  X would be `a`
//! 2     1       mark 0, choice 5 at 1, pending X 0-1                  a trial: `b`; outside all frames: matched 0 to 2, X is `a`
//! ```
//!
//! Without the ` . X`, `'b'` would come right after `Repeat`, which would try it; then no choice would be left at cursor 0.
//!
//! # Starts that are passed over
//!
//! A match that floats is tried at each cursor. Most patterns begin with a leaf that needs a certain character, as a literal, `ANY`
//! or `SPAN`. So [`compile`] works out what a match can begin with ([`Beginnings`](starts::beginnings::Beginnings)). The leaves with which it can
//! begin are its heads, one for each alternative; a reference has the heads of its definition. At a cursor at which no head can begin, the
//! match does nothing but one trial for each head. Such starts are passed over together: they are sought as bytes or in a
//! [table](starts::head_tables::HeadTable), and their trials are spent at once.
//!
//! A literal of several characters says more than its first one. Where alternatives begin with such words, a start at which a first
//! character is found is passed over too if none of the words is there. `POS(n)` has no head, but past the cursor n it never matches,
//! and costs its trial. Words and places are sought by a [`FrontSearch`](starts::front_search::FrontSearch).
//!
//! If a match begins with `SPAN`, it ends its first part at one cursor from wherever in a run it begins. If the primitive that comes
//! next fails there, each start in that run fails after two trials. So after a first start has failed, such runs are passed over as
//! a whole ([`RunStart`](starts::run_starts::RunStart)).
//!
//! # What a trial costs
//!
//! A trial of `SPAN`, `BREAK` or `BAL` may go over the whole text, and a text may be gone over from each of its cursors. So a match
//! learns of its text ([`Learnt`](run::learnt::Learnt)). A walk that goes over more than some characters is counted. Once such walks
//! have gone over more characters than the text has, one pass finds all ends at once: those of the runs of that set, or those of
//! `BAL`. From then on a trial of it looks at no more than some hundred characters. What was learnt changes no result. No
//! clause says how long a trial takes.
//!
//! No character is gone over twice unless something failed in between. So the match looks whether there is something to be learnt
//! only when it backs up, or when a `BREAK` that was tried ahead fails ([`Step::Instead`](run::stepping::Step::Instead)). A step has
//! the text beside what was learnt of it, the [`Subject`](run::subject::Subject), and reads the text itself.
//!
//! | File | What it holds |
//! |---|---|
//! | `workspace` | memory that matches use one after the other |
//! | `searched` | a text that is searched more than once |
//! | `code` | [`compile`], [`Code::first`], [`Code::first_in`], [`Code::first_in_bytes`] and [`Code::first_from`] |
//! | `compiling/nodes` | nodes and their operations |
//! | `compiling/builder` | a pattern is compiled |
//! | `compiling/lookaheads` | the primitives that a branch tries itself |
//! | `compiling/taking` | the parts that take a character wherever they end |
//! | `run/entries` | places, entries, the history |
//! | `run/history` | how entries are added to the history, and taken up |
//! | `run/progress` | what was done so far: immediate assignments and trials |
//! | `run/stepping` | one step: what a node does |
//! | `run/branching` | going on at one node, with another one left as a choice |
//! | `run/singles` | the primitives that have at most one end |
//! | `compiling/other_leaves`, `run/leaves` | the other patterns without parts |
//! | `run/parts` | parts of `.` and `$`, and primitives as such parts |
//! | `run/rows` | primitives in a row that take exactly one character each, also as such parts |
//! | `run/rounds` | rounds of a repetition of a primitive |
//! | `run/one_character` | the primitives that take exactly one character |
//! | `run/scanning` | how many rounds of such a part are passed |
//! | `run/pairs` | the parts that are two primitives with at most one end each |
//! | `run/pair_rounds` | the rounds of such a part that are passed |
//! | `run/together` | the rounds that are gone through together |
//! | `run/seeking` | `ARB` before a part with few heads |
//! | `run/conditions` | the pending assignments of a success are gathered, in their order |
//! | `run/running` | one step after the other, and one start after the other |
//! | `run/subject` | the text of a match, beside what was learnt of it |
//! | `run/known` | where the runs of some sets end, and where `BAL` first ends |
//! | `run/learnt` | what was learnt of the text |
//! | `run/search` | the outcome of a match |
//! | `starts/fronts` | the leaves with which a match can begin: heads, words, and the places of `POS` |
//! | `starts/heads` | the characters with which a leaf can begin |
//! | `starts/needles` | few heads, which are sought together |
//! | `starts/head_tables` | many heads, as a table of characters |
//! | `starts/unmarking` | the characters of a head in such a table |
//! | `starts/sought` | heads that are sought, few or many |
//! | `starts/words` | literals of more than one character |
//! | `starts/front_search` | the search for words, and past the places of `POS` |
//! | `starts/beginnings` | what a match can begin with |
//! | `starts/run_starts` | starts within a run at whose end the match fails |
//! | `starts/passing` | starts at which no match can begin are passed over |
//!
//! It is proved in two halves. `specs/Plans.antt` says what a node does and what comes after it, its plan, and what is still to
//! come by a plan. `specs/Code.antt` gives each node its plan, and `plan_of` lays a pattern out as one. The compiler has to
//! show only that the nodes of a pattern have its plan.
//!
//! `specs/History.antt` says what is still to come of a place and of a history. Given what was done so far
//! (`specs/Progress.antt`), each step keeps what is still to come (`LeadsTo`). It also takes one from a number of steps that
//! `specs/Steps.antt` counts beforehand, so a match ends.
//!
//! Two lemmas say the rest. A pattern's plan means what the pattern does (`proofs/PlanLaws.antt`). A round needs no mark if its
//! part always takes a character (`proofs/TakingLaws.antt`).
#![tactic(auto)]

mod code;
mod compiling;
mod faults;
mod run;
mod searched;
mod starts;
mod workspace;

pub use code::{Code, compile};
pub use faults::MatchFault;
pub use run::search::SearchOutcome;
pub use searched::{MAX_KEPT, Searched};
pub use sno_pattern::{
    Assign, Assigns, ByteText, Conds, Found, Hit, Name, Pattern, Rules, Text, What,
};
pub use workspace::Workspace;
