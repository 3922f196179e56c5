//! Viewers.
ghost use Rattle.std.specs.Prelude.{◌≡◌, ◌≢◌, ◌≤◌, ◌⊎◌, IfOk, IfErr, IfSome, OnOk, MatchBool, MatchResult, Decides, [], length, map};
ghost use Rattle.std.specs.Arc.{arc_value};
ghost use Rattle.std.specs.Option.{option_map, option_map_or};
ghost use mathlib.Core.List.{IsPrefix};
ghost use Rattle.left_right.specs.Sides.{view};
ghost use Rattle.sno_book.specs.Journals.{Legal};
ghost use Rattle.sno_book.specs.Openings.{start};
ghost use Rattle.sno_published.specs.Histories.{GoesOn};
ghost use Rattle.sno_published.specs.Snapshots.{snapshots_of};
ghost use Rattle.sno_published.specs.Tables.{text_after, text_at};
ghost use Rattle.sno_published.specs.Viewings.{GivesLent, IsCause};
ghost use Rattle.sno_published.specs.declared.faults.ViewFault.TheVariants.{Memory};

use crate::snapshots::snapshots_of;
use crate::{Front, FullView, Naming, SeenEntries, Table, ViewFault, ViewRule};
use left_right::reader::{Reader, Reading};
use sno_book::{Opening, Snapshot, Text, TextName, ViewSource};
use std::alloc::{AllocError, Global};
use std::marker::Model;
use std::sync::Arc;

/// A reader of what one screen shows, which never waits. By its type what it has seen is a legal beginning of the
/// screen's history, for which the opening has room. Contracts see the entries that it has seen or was shown.
#[derive(Drop)]
pub struct Viewer<L: Naming> {
    opening: Arc<Opening>,
    reader: Option<Reader<Table<L>, SeenEntries, ViewRule<L>>>,
    front: Front,
}

impl<L: Naming> Model for Viewer<L> {
    ghost use Rattle.std.specs.Prelude.{◌≡◌, ◌≤◌, [], IfSome, length};
    ghost use Rattle.std.specs.Arc.{arc_value};
    ghost use Rattle.std.specs.Option.{option_map_or};
    ghost use mathlib.Core.List.{IsPrefix};
    ghost use Rattle.left_right.specs.Sides.{view as view_at};
    ghost use Rattle.sno_book.specs.Journals.{Legal};
    ghost use Rattle.sno_book.specs.Openings.{start};
    ghost use Rattle.sno_published.specs.Viewings.{Viewing, viewing_code};

    ghost Value = { Viewing };

    ghost coded = { viewing_code };

    ghost view = { λ s. record { shown = option_map_or (λ r. view_at r.place) s.reader []; seen = s.front.entries } };

    ghost invariant = { λ s. (s.front.history ≡ L.book) × Legal (start L.opening) s.front.entries × (length s.front.entries ≤ L.opening.room) × IfSome s.reader (λ r. IsPrefix (view_at r.place) s.front.entries) × (arc_value s.opening ≡ L.opening) };
}

impl<L: Naming> ViewSource for Viewer<L> {
    ghost use Rattle.sno_book.specs.Views.{View};

    ghost shown = { λ v. record { opening = L.opening; journal = v.seen } };
}

/// Goes on to the table's front, unless that is the shorter one. Returns whether it did.
fn go_on<L: Naming>(front: &mut Front, table: &Table<L>) -> bool
    requires { front.old.history ≡ L.book }
    ensures history { front.new.history ≡ L.book }
    ensures legal { Legal (start L.opening) table.now }
    ensures within { length table.now ≤ L.opening.room }
    ensures entries { MatchBool result ((front.new.entries ≡ table.now) × IsPrefix front.old.entries table.now) ((front.new ≡ front.old) × GoesOn table.now front.old.entries) }
{
    let shown = table.front();
    // for the proof
    front.learn(shown);
    if shown.count() < front.count() {
        return false;
    }
    *front = shown.again();
    true
}

/// A share of the text at a place of a table.
fn share<L: Naming>(table: &Table<L>, place: usize) -> Result<Option<(Arc<Text>, u64)>, ViewFault>
    ensures found { IfOk result (λ o. option_map (λ t. text_at L.opening place (arc_value t.0) t.1) o ≡ text_after L.opening table.now place) }
    ensures memory { IfErr result (λ e. e ≡ Memory) }
{
    let Some((text, version)) = table.text(place) else {
        return Ok(None);
    };
    match Arc::try_clone(text) {
        Ok(text) => Ok(Some((text, version))),
        Err(_) => Err(ViewFault::Memory),
    }
}

/// Lends the text at a place of a table to a function.
fn lend<L: Naming, T, F: FnOnce(&Text, u64) -> T>(
    table: &Table<L>,
    place: usize,
    read: F,
) -> Option<T>
    requires { F.IsAlwaysCallable read }
    ensures { GivesLent F.FnOnce read L.opening (text_after L.opening table.now place) place result }
{
    let (text, version) = table.text(place)?;
    Some(read(text, version))
}

/// Enters what is shown, and goes on to it.
fn begin<L: Naming>(
    reader: &mut Option<Reader<Table<L>, SeenEntries, ViewRule<L>>>,
    front: &mut Front,
) -> Result<Reading<Table<L>, SeenEntries, ViewRule<L>>, ViewFault>
    requires history { front.old.history ≡ L.book }
    requires reader { IfSome reader.old (λ r. IsPrefix (view r.place) front.old.entries) }
    ensures history { front.new.history ≡ L.book }
    ensures begins { IsPrefix front.old.entries front.new.entries }
    ensures reader { IfSome reader.new (λ r. IsPrefix (view r.place) front.new.entries) }
    ensures entered { MatchResult result (λ reading. (reading.part.value ≡ front.new.entries) × (view reading.place ≡ front.new.entries) × Legal (start L.opening) front.new.entries × (length front.new.entries ≤ L.opening.room))
        (λ e. (e ≢ Memory) × IsCause e (record { shown = option_map_or (λ r. view r.place) reader.old []; seen = front.old.entries }) (record { shown = option_map_or (λ r. view r.place) reader.new []; seen = front.new.entries })) }
{
    let Some(outside) = reader.take() else {
        return Err(ViewFault::Ended);
    };
    let reading = match outside.enter_as::<FullView>() {
        Ok(reading) => reading,
        Err(outside) => {
            *reader = Some(outside);
            return Err(ViewFault::Ended);
        }
    };
    if go_on(front, reading.get()) {
        return Ok(reading);
    }
    *reader = Some(reading.leave());
    Err(ViewFault::Older)
}

impl<L: Naming> Viewer<L> {
    /// The desk's opening.
    pub fn opening(&self) -> &Opening
        ensures { result.now ≡ L.opening }
    {
        &self.opening
    }

    /// A share of the desk's opening.
    pub fn share_opening(&self) -> Result<Arc<Opening>, AllocError>
        ensures { IfOk result (λ o. arc_value o ≡ L.opening) }
    {
        let share = Arc::try_clone(&self.opening)?;
        Ok(share)
    }

    /// How many entries the viewer has seen or was shown.
    pub fn seen(&self) -> u64
        ensures seen { result ≡ length self.now.seen }
        ensures legal { Legal (start L.opening) self.now.seen }
        ensures within { length self.now.seen ≤ L.opening.room }
    {
        self.front.count()
    }

    /// Sees what is shown. It waits for nobody and takes no memory.
    ///
    /// Refused: `Ended`; `Older`, only if the viewer was shown more than it had found shown itself. What it has seen
    /// is unchanged then.
    pub fn enter(&mut self) -> Result<(), ViewFault>
        ensures begins { IsPrefix self.old.seen self.new.seen }
        ensures shown { OnOk result (self.new.seen ≡ self.new.shown) }
        ensures refused { IfErr result (λ e. (e ≢ Memory) × IsCause e self.old self.new) }
    {
        let reading = begin(&mut self.reader, &mut self.front)?;
        self.reader = Some(reading.leave());
        Ok(())
    }

    /// Sees what is shown, and lends the text at a place, from 0, to a function, with its version. `None` past the last
    /// text. It waits for nobody and takes no memory. While the function runs, no entry can be published.
    ///
    /// Refused as by [`Viewer::enter`], and then the function isn't called.
    pub fn read<T, F: FnOnce(&Text, u64) -> T>(
        &mut self,
        place: usize,
        read: F,
    ) -> Result<Option<T>, ViewFault>
        requires { F.IsAlwaysCallable read }
        ensures begins { IsPrefix self.old.seen self.new.seen }
        ensures shown { OnOk result (self.new.seen ≡ self.new.shown) }
        ensures lent { IfOk result (λ o. GivesLent F.FnOnce read L.opening (text_after L.opening self.new.seen place) place o) }
        ensures refused { IfErr result (λ e. (e ≢ Memory) × IsCause e self.old self.new) }
    {
        let reading = begin(&mut self.reader, &mut self.front)?;
        let found = lend(reading.get(), place, read);
        self.reader = Some(reading.leave());
        Ok(found)
    }

    /// Sees what is shown, and returns a share of the text at a place, from 0, with its version. `None` past the last
    /// text. It waits for nobody.
    ///
    /// Refused, in this order: `Ended` and `Older` as by [`Viewer::enter`]; `Memory`, and then what is shown was seen.
    pub fn text(&mut self, place: usize) -> Result<Option<(Arc<Text>, u64)>, ViewFault>
        ensures begins { IsPrefix self.old.seen self.new.seen }
        ensures shown { OnOk result (self.new.seen ≡ self.new.shown) }
        ensures found { IfOk result (λ o. option_map (λ t. text_at L.opening place (arc_value t.0) t.1) o ≡ text_after L.opening self.new.seen place) }
        ensures refused { IfErr result (λ e. IsCause e self.old self.new) }
    {
        let reading = begin(&mut self.reader, &mut self.front)?;
        let found = share(reading.get(), place);
        self.reader = Some(reading.leave());
        found
    }

    /// Sees what is shown, and returns snapshots of the texts of these names, in their order, all as the same entries
    /// leave them. `None` if the opening has no text of one of the names. It waits for nobody. While the texts are
    /// shared, no entry can be published.
    ///
    /// Refused as by [`Viewer::text`].
    pub fn snapshots(
        &mut self,
        alloc: Global,
        names: &[&TextName],
    ) -> Result<Option<Vec<Snapshot>>, ViewFault>
        ensures begins { IsPrefix self.old.seen self.new.seen }
        ensures shown { OnOk result (self.new.seen ≡ self.new.shown) }
        ensures found { IfOk result (λ o. option_map (λ v. v.items) o ≡ snapshots_of L.opening self.new.seen (map (λ n. n.now) names.now)) }
        ensures refused { IfErr result (λ e. IsCause e self.old self.new) }
    {
        let reading = begin(&mut self.reader, &mut self.front)?;
        let found = snapshots_of(alloc, reading.get(), names);
        self.reader = Some(reading.leave());
        found.map_err(|_| ViewFault::Memory)
    }

    /// Learns what a table of its own desk shows. From now on the longer of the two lists is what it has seen. It
    /// waits for nobody and takes no memory.
    pub fn learn(&mut self, table: &Table<L>)
        ensures begins { IsPrefix self.old.seen self.new.seen }
        ensures learnt { IsPrefix table.now self.new.seen }
        ensures one { (self.new.seen ≡ self.old.seen) ⊎ (self.new.seen ≡ table.now) }
    {
        let _ = go_on(&mut self.front, table);
    }

    /// Whether the viewer has seen just what a table of its own desk shows.
    pub fn is_level(&self, table: &Table<L>) -> bool
        ensures { Decides result (self.now.seen ≡ table.now) }
    {
        let shown = table.front();
        if self.front.count() != shown.count() {
            return false;
        }
        // for the proof
        self.front.learn(shown);
        true
    }

    /// Whether what a table of its own desk shows begins with all that the viewer has seen.
    pub fn is_within(&self, table: &Table<L>) -> bool
        ensures { Decides result (IsPrefix self.now.seen table.now) }
    {
        let shown = table.front();
        // for the proof
        self.front.learn(shown);
        shown.count() >= self.front.count()
    }
}

/// A viewer that sees through this reader, which has seen nothing yet, and learns what a table shows.
pub(crate) fn viewer_of<L: Naming>(
    reader: Reader<Table<L>, SeenEntries, ViewRule<L>>,
    table: &Table<L>,
) -> Result<Viewer<L>, AllocError>
    requires { view reader.place ≡ [] }
    ensures { IfOk result (λ viewer. viewer ≡ record { shown = []; seen = table.now }) }
{
    Ok(Viewer {
        opening: Arc::try_clone(table.opening())?,
        reader: Some(reader),
        front: table.front().again(),
    })
}
