ghost use Rattle.std.specs.Prelude.{◌≡◌, ◌+◌, ◌<◌, ◌≤◌, length, map, sum, IfOk, MatchResult, None};
ghost use Rattle.std.specs.List.{sum_by};
ghost use Rattle.pf_base.specs.declared.TheConstants.{MAX_NAMESPACES};
ghost use Rattle.pf_frame.specs.Faults.{fault_of, IsFault};
ghost use Rattle.pf_frame.specs.Live.{Takes, Releases};
ghost use Rattle.pf_depot.specs.Admission.{admit_fault, IsAdmitFault};
ghost use Rattle.pf_depot.specs.AllLoans.{held_of, reserved_of};
ghost use Rattle.pf_depot.specs.Blanks.{IsBlankOf};
ghost use Rattle.pf_depot.specs.Book.{books_of, opening_books, Lends, Admits, Retires, IsUndealt};
ghost use Rattle.pf_depot.specs.Depot.{free_of, frames_of, slack_of};
ghost use Rattle.pf_depot.specs.Loans.{loans_live};

use crate::allotment::Allotment;
use crate::depot::Depot;
use crate::leaving::Leaving;
use crate::lender::Lender;
use crate::loans::Loans;
use pf_base::{AdmitFault, MAX_NAMESPACES, MAX_NUMBERS};
use pf_frame::{Frame, FrameNo, PoolFault};
use std::alloc::{AllocError, Global};
use std::marker::Model;
use std::sync::ledger::{Blank, Book, Ledger, Share};

/// A depot that many namespaces share, with the books of two ledgers: how many frames they may still take, which are
/// their credits, and how many they hold.
///
/// A ledger is of all namespaces over one depot. A namespace has a share of each: its credits, and the number of its
/// frames on loan. A book has the sum of all shares, and there is one of each ledger, so no other depot can come in the
/// place of this one. Each free frame is there for a credit, or is reserved for nobody, so whoever has a credit finds
/// one. As that is true of every value, it is true whenever the lock around one is free.
///
/// Namespaces come and go: one that comes is dealt a part of each ledger, and gives it back when it goes. A number is
/// given once.
///
/// A contract sees the numbers alone.
#[derive(Drop)]
pub struct DepotBook<C: Ledger, H: Ledger> {
    depot: Depot,
    credits: Book<C>,
    held: Book<H>,
    // What is left of the ledgers: a part of each for each namespace that may still come.
    undealt_credits: Share<C>,
    undealt_held: Share<H>,
    // How many namespaces live.
    living: u32,
    // How many numbers of namespaces are given.
    given: u32,
}

impl<C: Ledger, H: Ledger> Model for DepotBook<C, H> {
    ghost use Rattle.std.specs.Prelude.{◌≡◌, ◌+◌, ◌≤◌};
    ghost use Rattle.pf_base.specs.declared.TheConstants.{MAX_NAMESPACES, MAX_NUMBERS};
    ghost use Rattle.pf_depot.specs.Book.{Books, books_of, IsUndealt};
    ghost use Rattle.pf_depot.specs.Depot.{free_of, frames_of, slack_of};

    ghost Value = { Books };

    ghost view = { λ b. books_of b.depot b.credits.total b.held.total b.living b.given };

    ghost invariant = { λ b. (free_of b.depot + b.held.total ≡ frames_of b.depot)
        × (free_of b.depot ≡ b.credits.total + slack_of b.depot)
        × IsUndealt C.parts b.undealt_credits.parts b.undealt_credits.amount b.living
        × IsUndealt H.parts b.undealt_held.parts b.undealt_held.amount b.living
        × (b.living ≤ MAX_NAMESPACES) × (b.given ≤ MAX_NUMBERS) };
}

impl<C: Ledger, H: Ledger> DepotBook<C, H> {
    /// A depot with its books, and what is left of the ledgers. So many namespaces live, and have the first numbers.
    pub fn new(
        depot: Depot,
        credits: Book<C>,
        held: Book<H>,
        undealt_credits: Share<C>,
        undealt_held: Share<H>,
        living: u32,
    ) -> DepotBook<C, H>
        requires counted { free_of depot + held.total ≡ frames_of depot }
        requires covered { free_of depot ≡ credits.total + slack_of depot }
        requires credits { IsUndealt C.parts undealt_credits.parts undealt_credits.amount living }
        requires held { IsUndealt H.parts undealt_held.parts undealt_held.amount living }
        requires few { living ≤ MAX_NAMESPACES }
        ensures { result ≡ books_of depot credits.total held.total living living }
    {
        DepotBook {
            depot,
            credits,
            held,
            undealt_credits,
            undealt_held,
            living,
            given: living,
        }
    }

    /// A depot of these frames, all of them free, and what each namespace begins with, for as many as there are
    /// reservations, by their places. What is left of the ledgers is for namespaces that come later.
    ///
    /// Each ledger has a part for each namespace that there may be at once. The faults are those of `Depot::new`, in
    /// their order.
    pub fn open(
        alloc: Global,
        frames: Vec<Frame>,
        reserves: Vec<u32>,
        credits: Blank,
        held: Blank,
    ) -> Result<(DepotBook<C, H>, Vec<Allotment<C, H>>), PoolFault>
        requires blanks { IsBlankOf C.name C.parts credits × IsBlankOf H.name H.parts held }
        ensures { MatchResult result
            (λ made. (fault_of (length frames.items) reserves.items ≡ None)
            × (made.0 ≡ opening_books (length frames.items) (sum reserves.items) (length reserves.items))
            × (map (λ a. reserved_of a.loans) made.1.items ≡ reserves.items))
            (λ fault. IsFault (fault_of (length frames.items) reserves.items) fault) }
    {
        match Depot::new(alloc, frames, reserves) {
            Ok((depot, loans)) => match DepotBook::over(alloc, depot, loans, credits, held) {
                Ok(opened) => Ok(opened),
                Err(_) => Err(PoolFault::NoMemory),
            },
            Err(fault) => Err(fault),
        }
    }

    // The books of a depot whose frames are all free, with each of these loans dealt its shares.
    fn over(
        alloc: Global,
        depot: Depot,
        loans: Vec<Loans>,
        credits: Blank,
        held: Blank,
    ) -> Result<(DepotBook<C, H>, Vec<Allotment<C, H>>), AllocError>
        requires blanks { IsBlankOf C.name C.parts credits × IsBlankOf H.name H.parts held }
        requires few { length loans.items ≤ MAX_NAMESPACES }
        requires free { free_of depot ≡ frames_of depot }
        requires none { sum_by held_of loans.items ≡ 0 }
        requires reserved { slack_of depot + sum_by reserved_of loans.items ≡ free_of depot }
        ensures { IfOk result (λ made.
            (made.0 ≡ opening_books (free_of depot) (sum_by reserved_of loans.items) (length loans.items))
            × (map (λ a. reserved_of a.loans) made.1.items ≡ map reserved_of loans.items)) }
    {
        let (mut unspent, mut credits) = credits.open::<C>();
        let (lent, mut held) = held.open::<H>();
        let living = loans.len() as u32;
        let mut allotments = Vec::with_capacity(alloc, loans.len())?;
        for own in loans {
            allotments.push_reserved(Allotment::deal(own, &mut unspent, &mut credits, &mut held));
        }
        let book = DepotBook::new(depot, unspent, lent, credits, held, living);
        Ok((book, allotments))
    }

    /// How many frames are free. They and those held are all frames, and each is there for a credit or is reserved for
    /// nobody.
    pub fn free(&self) -> u32
        ensures free { result ≡ self.now.free }
        ensures counted { self.now.free + self.now.held ≡ self.now.frames }
        ensures covered { self.now.free ≡ self.now.credits + self.now.slack }
    {
        self.depot.free()
    }

    /// What one namespace more begins with, and its number: the least that was never given. Its reservation passes from
    /// the slack to the credits, and no frame moves.
    ///
    /// `TooManyNamespaces` exactly where 64 live or 1,024 numbers are given; then `NoRoom` exactly where the
    /// reservation is above the slack; then `NoMemory`. At a fault nothing has changed.
    pub fn admit(&mut self, reserve: u32) -> Result<(u32, Allotment<C, H>), AdmitFault>
        ensures { MatchResult result
            (λ made. (admit_fault self.old.living self.old.given self.old.slack reserve ≡ None)
            × Admits self.old self.new reserve
            × (made.0 ≡ self.old.given)
            × (reserved_of made.1.loans ≡ reserve))
            (λ fault. (self.new ≡ self.old)
            × IsAdmitFault (admit_fault self.old.living self.old.given self.old.slack reserve) fault) }
    {
        if self.living as usize >= MAX_NAMESPACES || self.given as usize >= MAX_NUMBERS {
            return Err(AdmitFault::TooManyNamespaces);
        }
        let loans = self.depot.admit(reserve)?;
        let number = self.given;
        self.given += 1;
        self.living += 1;
        let allotment = Allotment::deal(
            loans,
            &mut self.credits,
            &mut self.undealt_credits,
            &mut self.undealt_held,
        );
        Ok((number, allotment))
    }

    /// Takes all that a namespace has which goes. The frames of its stock are free again, and its reservation passes from
    /// the credits to the slack. Its number isn't given again.
    pub fn retire(&mut self, leaving: Leaving<C, H>)
        ensures { Retires self.old self.new (reserved_of leaving.loans) leaving.stock }
    {
        let Leaving {
            loans,
            mut credits,
            mut held,
            stock,
        } = leaving;
        let stocked = u64::from(stock.len());
        self.held.sub(&mut held, stocked);
        self.credits.add(&mut credits, stocked);
        self.depot.unstock(stock);
        self.credits.sub(&mut credits, u64::from(loans.credits()));
        self.depot.retire(loans);
        self.undealt_credits.merge(credits);
        self.undealt_held.merge(held);
        self.living -= 1;
    }

    /// Moves a free frame to a namespace's loans, for one of its credits.
    pub fn take(
        &mut self,
        credits: &mut Share<C>,
        held: &mut Share<H>,
        loans: &mut Loans,
    ) -> FrameNo
        requires credit { 0 < credits.old.amount }
        requires part { 0 < held.old.parts }
        requires vacant { (loans_live loans.old).held < (loans_live loans.old).reserved }
        ensures lends { Lends self.old self.new }
        ensures credits { (credits.new.amount + 1 ≡ credits.old.amount)
            × (credits.new.parts ≡ credits.old.parts) }
        ensures held { (held.new.amount ≡ held.old.amount + 1)
            × (held.new.parts ≡ held.old.parts) }
        ensures takes { Takes (loans_live loans.old) (loans_live loans.new) result }
    {
        self.credits.sub(credits, 1);
        self.held.add(held, 1);
        self.depot.take(loans)
    }

    /// Moves a frame of count 1 back from a namespace's loans, for which it has a credit again.
    pub fn give(
        &mut self,
        credits: &mut Share<C>,
        held: &mut Share<H>,
        loans: &mut Loans,
        no: FrameNo,
    )
        requires held { 0 < held.old.amount }
        requires part { 0 < credits.old.parts }
        requires single { (loans_live loans.old).count no ≡ 1 }
        ensures undone { Lends self.new self.old }
        ensures credits { (credits.new.amount ≡ credits.old.amount + 1)
            × (credits.new.parts ≡ credits.old.parts) }
        ensures held { (held.new.amount + 1 ≡ held.old.amount)
            × (held.new.parts ≡ held.old.parts) }
        ensures gives { Releases (loans_live loans.old) (loans_live loans.new) no }
    {
        self.held.sub(held, 1);
        self.credits.add(credits, 1);
        self.depot.give(loans, no);
    }
}
