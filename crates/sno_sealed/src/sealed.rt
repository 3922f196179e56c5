//! A store of lines with sums.
ghost use Rattle.std.specs.Prelude.{◌≡◌, length, IsTrue};
ghost use Rattle.sno_store.specs.Store as base;

use crate::SealFault;
use crate::batches::{Batch, batch_of};
use crate::chain::Chain;
use crate::reading::{check_tail, read_lines};
use sno_store::{Lines, Store, StoreFault};
use sqlite_disk::Disk;
use std::alloc::Global;

/// Lines with sums in a file.
///
/// What the clauses say of contents holds if the disk is clean, as for [`Store`].
#[derive(Drop)]
pub struct Sealed<D: Disk> {
    store: Store<D>,
    chain: Chain,
    ghost counted: { IsTrue (base.takes_lines store) → IsTrue (base.is_clean store) → length (base.lines_of store) ≡ chain.lines },
}

impl<D: Disk + Drop> Sealed<D> {
    ghost use Rattle.std.specs.Prelude.{◌≡◌, ◌+◌, ◌++◌, ℕ, List, true, false, length, is_ok, IsTrue, ◌↔◌, OnOk, IfOk, IfErr, Err};
    ghost use Rattle.sno_store.specs.declared.faults.StoreFault.TheVariants.{Closed};
    ghost use Rattle.sno_store.specs.Lines.{bytes_of, recovered, IsWhole};
    ghost use Rattle.sno_store.specs.Shown.{lines_in};
    ghost use Rattle.sno_store.specs.Faults.{IsPutFault, IsSteady, IsTailFault};
    ghost use Rattle.sno_sealed.specs.Chains.{IsChain};
    ghost use Rattle.sno_sealed.specs.Sealed.{store_of, chain_of, takes_lines, is_clean, lines_of, sealed_now, Holds, HoldsFirst, IsOnDisk, Leaves};

    /// Checks the lines of a store that was opened with them, and returns it with their payloads. Nothing is written.
    ///
    /// Lines without sums, which older formats have, come first and are their own payloads. From the first line with a sum on each has to be
    /// sealed as the next one. What comes after the lines, if it isn't zeros, has to be what a crash can have left of one batch. The
    /// refusals, in their order:
    ///
    /// - `Damaged` with the number of the first line that isn't right, or, if all are, of the one that would come next;
    /// - `Store` if what comes after the lines could not be read;
    /// - `Memory`, at any time.
    pub fn of(alloc: Global, store: Store<D>, lines: Lines) -> Result<(Sealed<D>, Lines), SealFault>
        requires { IsTrue (base.is_clean store) → lines_in lines ≡ base.lines_of store }
        ensures payloads { IfOk result (λ it. IsChain (lines_in lines) (lines_in it.1) (chain_of it.0)) }
        ensures same { IfOk result (λ it. base.file_of (store_of it.0) ≡ base.file_of store) }
        ensures open { IfOk result (λ it. takes_lines it.0 ≡ base.takes_lines store) }
        ensures clean { IfOk result (λ it. IsTrue (is_clean it.0) → IsTrue (base.is_clean store)) }
        ensures crash { IfOk result (λ it. (c : List ℕ) → Leaves it.0 c → base.Leaves store c) }
    {
        let mut store = store;
        let reader = read_lines(alloc, &lines)?;
        if store.is_torn() {
            let tail = store.tail(alloc)?;
            check_tail(alloc, &lines, reader.chain.lines, &tail)?;
        }
        let sealed = Sealed {
            store,
            chain: reader.chain,
        };
        Ok((sealed, reader.payloads))
    }

    /// Reads what comes after the lines, as [`Store::tail`] does.
    pub fn tail(&mut self, alloc: Global) -> Result<Vec<u8>, StoreFault>
        ensures tail { IfOk result (λ tail. IsTrue (is_clean self.new) → base.file_of (store_of self.old) ≡ bytes_of (lines_of self.old) ++ tail.items) }
        ensures same { base.file_of (store_of self.new) ≡ base.file_of (store_of self.old) }
        ensures crash { (c : List ℕ) → Leaves self.new c → Leaves self.old c }
        ensures clean { IsTrue (is_clean self.new) → IsTrue (is_clean self.old) }
        ensures open { takes_lines self.new ≡ takes_lines self.old }
        ensures chain { chain_of self.new ≡ chain_of self.old }
        ensures closed { takes_lines self.old ≡ false → (result ≡ Err Closed) × (store_of self.new ≡ store_of self.old) }
        ensures cause { IfErr result (λ fault. IsTailFault D.Disk (takes_lines self.old) (base.disk_of (store_of self.old)) (base.disk_of (store_of self.new)) fault) }
    {
        self.store.tail(alloc)
    }

    /// Whether the store takes lines.
    pub fn is_open(&self) -> bool
        ensures { result ≡ takes_lines self.now }
    {
        self.store.is_open()
    }

    /// How many lines there are.
    pub fn lines(&self) -> u64
        ensures { IsTrue (takes_lines self.now) → IsTrue (is_clean self.now) → result ≡ length (lines_of self.now) }
    {
        self.chain.lines
    }

    /// How many of them, the first ones, have no sum.
    pub fn plain(&self) -> u64
        ensures { result ≡ (chain_of self.now).plain }
    {
        self.chain.plain
    }

    /// Whether something other than zeros comes after the lines, as [`Store::is_torn`] says.
    pub fn is_torn(&self) -> bool
        ensures { IsTrue (takes_lines self.now) → IsTrue (is_clean self.now) → (IsTrue result ↔ (IsWhole (base.file_of (store_of self.now)) → ⊥)) }
    {
        self.store.is_torn()
    }

    /// The store, as it is.
    pub fn into_store(self) -> Store<D>
        ensures { result ≡ store_of self }
    {
        let Sealed { store, chain: _ } = self;
        store
    }

    /// Seals lines as one batch, adds them after those that are there, and waits until they are on the disk: at `Ok` each crash leaves all
    /// of them. A crash before that leaves the lines that were there and the first of the new ones. For no lines nothing is written, unless
    /// a torn tail has to be overwritten.
    ///
    /// The refusals are those of [`Store::put`], `TooLong` also if a line's number would have more than 64 bits. After `TooLong` and
    /// `Memory` the store is open, and has the lines that were there.
    pub fn put(&mut self, payloads: &Lines) -> Result<(), StoreFault>
        ensures written { OnOk result (IsTrue (is_clean self.new) → (lines_of self.new ≡ lines_of self.old ++ sealed_now self.old (lines_in payloads.now)) × IsOnDisk self.new) }
        ensures count { OnOk result (IsTrue (is_clean self.new) → length (lines_of self.new) ≡ length (lines_in payloads.now) + length (lines_of self.old)) }
        ensures acknowledged { OnOk result (IsTrue (is_clean self.new) → (olds : List (List ℕ)) → Holds self.old olds → Holds self.new (olds ++ lines_in payloads.now)) }
        ensures crash { IsTrue (takes_lines self.old) → IsTrue (is_clean self.new) → (c : List ℕ) → Leaves self.new c → (olds : List (List ℕ)) → Holds self.old olds → HoldsFirst olds (lines_in payloads.now) c }
        ensures clean { IsTrue (is_clean self.new) → IsTrue (is_clean self.old) }
        ensures steady { OnOk result (IsSteady D.Disk (base.disk_of (store_of self.old)) (base.disk_of (store_of self.new))) }
        ensures kept { IfErr result (λ fault. IsTrue (base.leaves_open fault) → (takes_lines self.new ≡ true) × (chain_of self.new ≡ chain_of self.old) × (IsTrue (is_clean self.new) → lines_of self.new ≡ lines_of self.old)) }
        ensures closed { takes_lines self.old ≡ false → (result ≡ Err Closed) × (self.new ≡ self.old) }
        ensures cause { IfErr result (λ fault. IsPutFault D.Disk (takes_lines self.old) (length (bytes_of (sealed_now self.old (lines_in payloads.now)))) (base.disk_of (store_of self.old)) (base.disk_of (store_of self.new)) fault) }
    {
        if !self.store.is_open() {
            return Err(StoreFault::Closed);
        }
        let Batch { lines, chain } = batch_of(payloads.allocator(), self.chain, payloads)?;
        self.store.put(&lines)?;
        self.chain = chain;
        Ok(())
    }
}
