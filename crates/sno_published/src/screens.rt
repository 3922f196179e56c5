//! Screens: what readers see, and whether more can be published.
ghost use Rattle.std.specs.Prelude.{◌≡◌, ◌<◌, ◌^◌, ◌++◌, ◌∷◌, [], Some, IfOk, IfErr, OnOk, MatchBool, MatchResult, length, drop, fold, true, if◌then◌else◌};
ghost use Rattle.std.specs.Arc.{arc_value};
ghost use Rattle.sno_book.specs.Journals.{HasStep, replay};
ghost use Rattle.sno_book.specs.Openings.{place_in, start};
ghost use Rattle.sno_book.specs.declared.openings.TheConstants.{MAX_ENTRIES};
ghost use Rattle.sno_published.specs.Screens.{leaves_open};

use crate::viewers::viewer_of;
use crate::{
    FullView, History, Naming, Operation, PublishFault, SeenEntries, Table, ViewRule, Viewer,
};
use core::mem::replace_with;
use left_right::Absorb;
use left_right::writer::Writer;
use sno_book::{Entry, Opening};
use std::alloc::{AllocError, Global};
use std::marker::Model;
use std::sync::{Arc, Wait};

/// How many attempts are counted.
const MOST_ATTEMPTS: u64 = 1 << 61;

/// What readers see, and whether more can be published. It is published to in place, since a commit would otherwise move
/// it some ten times. By its type, what is shown begins the desk's history, and nothing waits to be shown in an open
/// screen.
/// Contracts see the entries that are shown, and whether the screen is open. It is not `Drop`: end it by [`Screen::end`].
pub struct Screen<L: Naming>
where
    Table<L>: Absorb<Operation<L>, State = [Entry; 0]>,
{
    writer: Writer<Table<L>, Operation<L>, SeenEntries, ViewRule<L>>,
    history: Arc<History>,
    attempts: History,
    is_open: bool,
}

impl<L: Naming> Model for Screen<L>
where
    Table<L>: Absorb<Operation<L>, State = [Entry; 0]>,
{
    ghost use Rattle.std.specs.Prelude.{◌≡◌, [], drop, true};
    ghost use Rattle.std.specs.Arc.{arc_value};
    ghost use Rattle.sno_published.specs.Screens.{Screen, screen_code};

    ghost Value = { Screen };

    ghost coded = { screen_code };

    ghost view = { λ s. record { shown = s.writer.desk.shown.value; is_open = s.is_open } };

    ghost invariant = { λ s. ((arc_value s.history).history ≡ L.book) × (s.attempts.history ≡ L.tries) × (s.is_open ≡ true → drop s.writer.behind s.writer.log.items ≡ []) };
}

/// Puts an entry, whose text is at this place, after those that are shown into the writer's log, as one more attempt.
fn append<L: Naming>(
    writer: &mut Writer<Table<L>, Operation<L>, SeenEntries, ViewRule<L>>,
    history: &Arc<History>,
    attempts: &mut History,
    place: usize,
    entry: &Entry,
) -> Result<(), AllocError>
    requires history { (arc_value history.now).history ≡ L.book }
    requires attempts { attempts.old.history ≡ L.tries }
    requires step { HasStep (replay (start L.opening) writer.old.desk.shown.value) entry.now }
    requires room { (length writer.old.desk.shown.value < MAX_ENTRIES) × (length writer.old.desk.shown.value < L.opening.room) }
    requires place { place_in L.opening entry.now.statement.text ≡ Some place }
    ensures desk { writer.new.desk ≡ writer.old.desk }
    ensures attempts { attempts.new.history ≡ L.tries }
    ensures pending { MatchResult result (λ _. drop writer.new.behind writer.new.log.items ≡ drop writer.old.behind writer.old.log.items ++ record { before = writer.old.desk.shown.value; added = entry.now ∷ [] } ∷ [])
        (λ e. drop writer.new.behind writer.new.log.items ≡ drop writer.old.behind writer.old.log.items) }
{
    if attempts.front().count() > MOST_ATTEMPTS || !attempts.add(entry) {
        return Err(AllocError);
    }
    let before = writer.published().front();
    let operation = Operation::new(entry, place, before, attempts.front(), history)?;
    match writer.append(operation) {
        Ok(()) => Ok(()),
        Err(_) => Err(AllocError),
    }
}

/// Shows what waits in the writer's log.
fn show_log<L: Naming, R: Wait>(
    writer: Writer<Table<L>, Operation<L>, SeenEntries, ViewRule<L>>,
    rt: &R,
) -> (
    Writer<Table<L>, Operation<L>, SeenEntries, ViewRule<L>>,
    Result<(), AllocError>,
)
    ensures { MatchResult result.1 (λ _. (result.0.desk.shown.value ≡ fold (λ entries change. entries ++ change.added) writer.desk.shown.value (drop writer.behind writer.log.items)) × (drop result.0.behind result.0.log.items ≡ []))
        (λ e. result.0.desk.shown.value ≡ writer.desk.shown.value) }
{
    writer.publish_as::<FullView, R>(rt)
}

/// Shows the entry that waits in the writer's log. Returns whether it did.
fn show<L: Naming, R: Wait>(
    rt: &R,
    writer: &mut Writer<Table<L>, Operation<L>, SeenEntries, ViewRule<L>>,
    entry: &Entry,
) -> bool
    requires pending { drop writer.old.behind writer.old.log.items ≡ record { before = writer.old.desk.shown.value; added = entry.now ∷ [] } ∷ [] }
    ensures shown { writer.new.desk.shown.value ≡ (if result then writer.old.desk.shown.value ++ entry.now ∷ [] else writer.old.desk.shown.value) }
    ensures pending { result ≡ true → drop writer.new.behind writer.new.log.items ≡ [] }
{
    // for the proof
    let _ = entry;
    replace_with(writer, rt, show_log).is_ok()
}

impl<L: Naming> Screen<L> {
    /// An open screen, which shows the texts of an opening before the first entry. It has places for `readers` readers at
    /// once, from 1 to 2^32 - 1. Requires the desk's opening, the desk's `history` without entries, and the desk's
    /// history of `attempts`.
    ///
    /// Refused only if memory runs out; the histories are dropped then.
    pub fn new(
        alloc: Global,
        opening: &Arc<Opening>,
        history: History,
        attempts: History,
        readers: usize,
    ) -> Result<Screen<L>, AllocError>
        requires readers { (0 < readers) × (readers < 2 ^ 32) }
        requires opening { arc_value opening.now ≡ L.opening }
        requires history { history ≡ record { history = L.book; entries = [] } }
        requires attempts { attempts.history ≡ L.tries }
        ensures { IfOk result (λ screen. screen ≡ record { shown = []; is_open = true }) }
    {
        let first = Table::new(alloc, opening, history.front())?;
        let second = Table::new(alloc, opening, history.front())?;
        let history = Arc::new(alloc, history)?;
        let writer = Writer::new(alloc, first, second, readers)?;
        Ok(Screen {
            writer,
            history,
            attempts,
            is_open: true,
        })
    }

    /// Whether more can be published.
    pub fn is_open(&self) -> bool
        ensures { result ≡ self.now.is_open }
    {
        self.is_open
    }

    /// The table that readers see.
    pub fn table(&self) -> &Table<L>
        ensures { result.now ≡ self.now.shown }
    {
        self.writer.published()
    }

    /// How many entries are shown.
    pub fn count(&self) -> u64
        ensures { result ≡ length self.now.shown }
    {
        self.table().front().count()
    }

    /// Returns a viewer of this screen, which shows what the screen has.
    ///
    /// Refused only if each place for a reader is taken, or the opening or what is shown has as many owners as it may
    /// have.
    pub fn viewer(&self) -> Result<Viewer<L>, AllocError>
        ensures { IfOk result (λ viewer. viewer ≡ record { shown = []; seen = self.now.shown }) }
    {
        let reader = self.writer.factory().reader()?;
        viewer_of(reader, self.table())
    }

    /// Publishes an entry after those that are shown, all at once. It waits for readers that still read what was shown
    /// before the last entry. It takes memory only for the writer's log, by the log's own allocator. Requires
    ///
    /// - that the screen is open;
    /// - the place of the entry's text;
    /// - that the entry has a step from the texts that are shown;
    /// - that fewer entries are shown than 1,000,000 and than the opening has room for.
    ///
    /// Refused, in this order, and then readers see what they saw:
    ///
    /// - `Memory`, if the entry couldn't be shared or put into the log, or 2^61 attempts were made before; the screen is
    ///   as it was;
    /// - `Stopped`, if the publish itself was refused. The screen is no longer open then.
    pub fn publish<R: Wait>(
        &mut self,
        rt: &R,
        place: usize,
        entry: &Entry,
    ) -> Result<(), PublishFault>
        requires open { self.old.is_open ≡ true }
        requires place { place_in L.opening entry.now.statement.text ≡ Some place }
        requires step { HasStep (replay (start L.opening) self.old.shown) entry.now }
        requires room { (length self.old.shown < MAX_ENTRIES) × (length self.old.shown < L.opening.room) }
        ensures published { OnOk result (self.new ≡ record { shown = self.old.shown ++ entry.now ∷ []; is_open = true }) }
        ensures refused { IfErr result (λ e. self.new ≡ record { shown = self.old.shown; is_open = leaves_open e }) }
    {
        let Ok(()) = append(
            &mut self.writer,
            &self.history,
            &mut self.attempts,
            place,
            entry,
        ) else {
            return Err(PublishFault::Memory);
        };
        self.is_open = show(rt, &mut self.writer, entry);
        if self.is_open {
            Ok(())
        } else {
            Err(PublishFault::Stopped)
        }
    }

    /// Waits for the readers and ends the screen. From now on its viewers get `Ended`.
    pub fn end<R: Wait>(self, rt: &R) {
        let Screen {
            writer,
            history: _history,
            attempts: _attempts,
            is_open: _is_open,
        } = self;
        writer.take(rt);
    }
}
