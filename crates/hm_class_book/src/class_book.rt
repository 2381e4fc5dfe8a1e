//! The book of a class region. It takes one entry after another, and judges each while it takes it.
ghost use Rattle.std.specs.Prelude.{◌≡◌, ◌↔◌, ◌<◌, ◌≤◌, IsTrue, IfOk, Some, None, length, slice_index_or};
ghost use Rattle.hm_choice.specs.Stream.{after_word};
ghost use Rattle.hm_sizes.specs.Classes.{class_count};
ghost use Rattle.hm_sizes.specs.Configs.{IsValid};
ghost use Rattle.hm_sizes.specs.Shapes.{IsShape};
ghost use Rattle.hm_class_rules.specs.Draws.{stream_of, drawn_shape};
ghost use Rattle.hm_class_rules.specs.State.{State};
ghost use Rattle.hm_class_rules.specs.Draws.{Returned};
ghost use Rattle.hm_class_rules.specs.Drawn.{unparked_by};
ghost use Rattle.hm_class_rules.specs.Stepped.{front, touched, parking_with};
ghost use Rattle.hm_class_book.specs.Book.{state_in};
ghost use Rattle.hm_class_book.specs.Kinds.{kind_in};
ghost use Rattle.hm_class_book.specs.Said.{said};
ghost use Rattle.hm_class_book.specs.Asked.{IsAsked};
ghost use Rattle.hm_class_book.specs.Reached.{first_said, at_state, IsReached, IsJudged, Found, FoundPicked, FoundFreed};

use crate::book::Book;
use crate::choices::is_option;
use crate::draws::{
    are_words, array_index, free_words, is_canary, parking_index, picking_words, start_slot,
};
use crate::kinds::{Kind, Lists};
use crate::places::slab_of;
use crate::region::Region;
use hm_base::NoMemory;
use hm_choice::Stream;
use hm_model::{Call, Choices, Entry, Judgement, Reply, Runs};
use hm_quarantine::Quarantine;
use hm_sizes::{CLASSES, ClassId, Config, PAGE, Shape, shape_of};
use std::alloc::Global;
/// The book of a class region whose pages tell their bytes.
#[derive(Drop)]
pub struct ClassBook {
    pub alloc: Global,
    pub seed: u64,
    pub arena: u32,
    pub region: Region,
    pub book: Book,
    pub stream: Stream,
    pub lists: Lists,
    pub quarantine: Quarantine,
    pub parking: Vec<Option<u64>>,
}

// The stream of a region, of which the gap's word is taken, and the region's numbers.
fn begin(config: &Config, seed: u64, arena: u32, class: ClassId) -> (Stream, Shape)
    requires valid { IsValid config.now }
    requires arena { arena < config.now.arenas }
    requires class { class.0 < class_count }
    ensures stream { result.0 ≡ after_word (stream_of seed arena class) }
    ensures shape { result.1 ≡ drawn_shape seed config.now arena class }
    ensures fits { IsShape result.1 }
{
    let mut stream = Stream::start(seed, u64::from(arena) * CLASSES + u64::from(class.0));
    let (_word, pages) = stream.draw((config.class_region / PAGE) as u32);
    let gap = (u64::from(pages) + 1) * PAGE;
    let shape = shape_of(config, arena, class, gap);
    (stream, shape)
}

impl ClassBook {
    /// A book of no entries. Its words follow from the seed.
    pub fn build(
        alloc: Global,
        config: &Config,
        seed: u64,
        arena: u32,
        class: ClassId,
    ) -> Result<ClassBook, NoMemory>
        requires valid { IsValid config.now }
        requires arena { arena < config.now.arenas }
        requires class { class.0 < class_count }
        ensures value { IfOk result (λ b. said b ≡ first_said seed config.now arena class) }
        ensures reached { IfOk result (λ b. IsReached (said b)) }
    {
        let (stream, shape) = begin(config, seed, arena, class);
        let quarantine = Quarantine::build(alloc, shape.array, shape.ring)?;
        let parking = vec![in alloc; None; config.park_length as usize]?;
        Ok(ClassBook {
            alloc,
            seed,
            arena,
            region: Region {
                config: *config,
                shape,
            },
            book: Book::start(alloc),
            stream,
            lists: Lists::none(alloc),
            quarantine,
            parking,
        })
    }

    /// Where the region begins.
    pub fn first(&self) -> u64
        ensures { result ≡ (said self.now).terms.shape.first }
    {
        self.region.shape.first
    }

    /// The count of page faults after the last entry.
    pub fn faults(&self) -> u64
        ensures { result ≡ (said self.now).cells.state.faults }
    {
        self.book.faults
    }

    /// Judges an entry, and takes it where it is allowed and drawn. After another answer, and where memory lacks, the
    /// book says nothing of use.
    pub fn take(&mut self, entry: &Entry) -> Result<Judgement, NoMemory>
        requires { IsReached (said self.old) }
        ensures { IfOk result (IsJudged (said self.old) (said self.new) entry.now) }
    {
        if !self.book.may_follow(&self.region.shape, entry) {
            return Ok(Judgement::NotLegal);
        }
        match &entry.call {
            Call::Allot { asked, align } => self.take_allot(entry, *asked, *align),
            Call::GiveBack { addr, stated } => self.take_give_back(entry, *addr, *stated),
            Call::Measure { addr } => Ok(self.take_measure(entry, *addr)),
            Call::Fetch { addr, len } => self.take_fetch(entry, *addr, *len),
            Call::Fill { addr, runs } => self.take_fill(entry, *addr, runs),
        }
    }

    fn take_measure(&mut self, entry: &Entry, addr: u64) -> Judgement
        requires { IsAsked (said self.old) entry.now (Call.Measure addr) }
        ensures { IsJudged (said self.old) (said self.new) entry.now result }
    {
        let legal = self
            .book
            .may_measure(&self.region, &entry.choices, addr, &entry.reply);
        self.settle(entry, legal)
    }

    fn take_fetch(&mut self, entry: &Entry, addr: u64, len: u64) -> Result<Judgement, NoMemory>
        requires { IsAsked (said self.old) entry.now (Call.Fetch addr len) }
        ensures { IfOk result (IsJudged (said self.old) (said self.new) entry.now) }
    {
        let legal = self.book.may_fetch(
            self.alloc,
            &self.region,
            &entry.choices,
            addr,
            len,
            &entry.reply,
        )?;
        Ok(self.settle(entry, legal))
    }

    fn take_fill(&mut self, entry: &Entry, addr: u64, runs: &Runs) -> Result<Judgement, NoMemory>
        requires { IsAsked (said self.old) entry.now (Call.Fill addr runs.now) }
        ensures { IfOk result (IsJudged (said self.old) (said self.new) entry.now) }
    {
        match &entry.reply {
            Reply::Filled => {
                let legal = self.book.fill(&self.region, &entry.choices, addr, runs);
                Ok(self.settle(entry, legal))
            }
            reply => {
                let legal = self
                    .book
                    .may_trap(&self.region, &entry.choices, addr, runs, reply);
                Ok(self.settle(entry, legal))
            }
        }
    }

    fn take_allot(&mut self, entry: &Entry, asked: u64, align: u64) -> Result<Judgement, NoMemory>
        requires { IsAsked (said self.old) entry.now (Call.Allot asked align) }
        ensures { IfOk result (IsJudged (said self.old) (said self.new) entry.now) }
    {
        match &entry.reply {
            Reply::Given { addr, usable } => {
                self.take_given(entry, asked, align, *addr, *usable)
            },
            Reply::Overwritten { addr, at, found } => {
                self.take_overwritten(entry, asked, align, *addr, (*at, *found))
            }
            reply => {
                let counts = (entry.faults_before, entry.faults_after);
                let legal = self
                    .book
                    .may_not_give(&self.region, &self.lists, &entry.choices, counts, reply);
                Ok(self.settle(entry, legal))
            }
        }
    }

    fn take_given(
        &mut self,
        entry: &Entry,
        asked: u64,
        align: u64,
        addr: u64,
        usable: u64,
    ) -> Result<Judgement, NoMemory>
        requires asked { IsAsked (said self.old) entry.now (Call.Allot asked align) }
        requires reply { entry.now.reply ≡ Reply.Given addr usable }
        ensures { IfOk result (IsJudged (said self.old) (said self.new) entry.now) }
    {
        let from = start_slot(&self.region, &entry.choices, &entry.draws);
        let slab = slab_of(&self.region.shape, addr);
        let before = self.book.kind(&self.region.shape, slab);
        let picked = self.book.take_given(
            self.alloc,
            &self.region,
            &self.lists,
            &entry.choices,
            asked,
            addr,
            usable,
            from,
        )?;
        self.settle_picked(entry, addr, before, picked)
    }

    fn take_overwritten(
        &mut self,
        entry: &Entry,
        asked: u64,
        align: u64,
        addr: u64,
        stain: (u64, u8),
    ) -> Result<Judgement, NoMemory>
        requires asked { IsAsked (said self.old) entry.now (Call.Allot asked align) }
        requires reply { entry.now.reply ≡ Reply.Overwritten addr stain.0 stain.1 }
        ensures { IfOk result (IsJudged (said self.old) (said self.new) entry.now) }
    {
        let from = start_slot(&self.region, &entry.choices, &entry.draws);
        let slab = slab_of(&self.region.shape, addr);
        let before = self.book.kind(&self.region.shape, slab);
        let picked = self.book.take_overwritten(
            self.alloc,
            &self.region,
            &self.lists,
            &entry.choices,
            addr,
            stain,
            from,
        )?;
        self.settle_picked(entry, addr, before, picked)
    }

    fn take_give_back(
        &mut self,
        entry: &Entry,
        addr: u64,
        stated: Option<u64>,
    ) -> Result<Judgement, NoMemory>
        requires { IsAsked (said self.old) entry.now (Call.GiveBack addr stated) }
        ensures { IfOk result (IsJudged (said self.old) (said self.new) entry.now) }
    {
        match &entry.reply {
            Reply::Freed => self.take_freed(entry, addr, stated),
            reply => {
                let legal = self
                    .book
                    .may_refuse(&self.region, &entry.choices, addr, stated, reply);
                Ok(self.settle(entry, legal))
            }
        }
    }

    fn take_freed(
        &mut self,
        entry: &Entry,
        addr: u64,
        stated: Option<u64>,
    ) -> Result<Judgement, NoMemory>
        requires asked { IsAsked (said self.old) entry.now (Call.GiveBack addr stated) }
        requires reply { entry.now.reply ≡ Reply.Freed }
        ensures { IfOk result (IsJudged (said self.old) (said self.new) entry.now) }
    {
        let slab = touched(&self.region.shape, &entry.choices, addr);
        let before = self.book.kind(&self.region.shape, slab);
        let counts = (entry.faults_before, entry.faults_after);
        let legal = self.book.take_freed(
            &self.region,
            self.lists.empty.len(),
            counts,
            &entry.choices,
            addr,
            stated,
        )?;
        self.settle_freed(entry, addr, before, legal)
    }

    // Ends an entry at which nothing is drawn. `legal` says whether it is allowed.
    fn settle(&mut self, entry: &Entry, legal: bool) -> Judgement
        ensures { (s : State) → Found (at_state (said self.old) s) entry.now legal (state_in self.old.book)
            → IsJudged (at_state (said self.old) s) (said self.new) entry.now result }
    {
        if !legal {
            return Judgement::NotLegal;
        }
        self.book.faults = entry.faults_after;
        let used = entry.draws.used;
        if used != 0 {
            return Judgement::NotDrawn;
        }
        Judgement::Taken
    }

    // Ends an entry in which a slot was picked: its slab was of this kind before. The slot is the first available one or
    // not, or may not be picked.
    fn settle_picked(
        &mut self,
        entry: &Entry,
        addr: u64,
        before: Kind,
        picked: Option<bool>,
    ) -> Result<Judgement, NoMemory>
        requires { IsShape self.old.region.shape }
        ensures { (s : State) → FoundPicked (at_state (said self.old) s) entry.now addr (kind_in before) picked
            (state_in self.old.book)
            → IfOk result (IsJudged (at_state (said self.old) s) (said self.new) entry.now) }
    {
        match picked {
            Some(first) => self.end_picked(entry, addr, before, first),
            None => Ok(Judgement::NotLegal),
        }
    }

    // The same, where it may be picked.
    fn end_picked(
        &mut self,
        entry: &Entry,
        addr: u64,
        before: Kind,
        first: bool,
    ) -> Result<Judgement, NoMemory>
        requires { IsShape self.old.region.shape }
        ensures { (s : State) → FoundPicked (at_state (said self.old) s) entry.now addr (kind_in before) (Some first)
            (state_in self.old.book)
            → IfOk result (IsJudged (at_state (said self.old) s) (said self.new) entry.now) }
    {
        self.book.faults = entry.faults_after;
        let slab = slab_of(&self.region.shape, addr);
        let count = picking_words(&self.region, &entry.choices);
        let words = are_words(&mut self.stream, &entry.draws, count);
        let canary = is_canary(&entry.choices, &entry.draws);
        let source = is_front(&self.lists, entry.choices.opened, slab);
        let drawn = words & canary & source & first;
        if !drawn {
            return Ok(Judgement::NotDrawn);
        }
        let after = self.book.kind(&self.region.shape, slab);
        self.lists.file(slab, before, after)?;
        Ok(Judgement::Taken)
    }

    // Ends an entry in which a block was taken back. The slab that this touches was of this kind before.
    fn settle_freed(
        &mut self,
        entry: &Entry,
        addr: u64,
        before: Kind,
        legal: bool,
    ) -> Result<Judgement, NoMemory>
        requires shape { IsShape self.old.region.shape }
        requires parks { 1 ≤ self.old.region.config.park_length }
        requires array { length self.old.quarantine.array ≡ self.old.region.shape.array }
        ensures { (s : State) → FoundFreed (at_state (said self.old) s) entry.now addr (kind_in before) legal
            (state_in self.old.book)
            → IfOk result (IsJudged (at_state (said self.old) s) (said self.new) entry.now) }
    {
        if !legal {
            return Ok(Judgement::NotLegal);
        }
        self.book.faults = entry.faults_after;
        let count = free_words(&self.region.shape, &entry.choices);
        if !are_words(&mut self.stream, &entry.draws, count) {
            return Ok(Judgement::NotDrawn);
        }
        let kept_at = array_index(&self.region.shape, &entry.draws);
        let released = self.quarantine.pass(addr, kept_at);
        let parked_at = parking_index(&self.region, &entry.draws);
        let unparked = park(&mut self.parking, parked_at, entry.choices.retired);
        let leaves = is_option(entry.choices.released, released);
        let unparks = is_option(entry.choices.unparked, unparked);
        let drawn = leaves & unparks;
        if !drawn {
            return Ok(Judgement::NotDrawn);
        }
        let slab = touched(&self.region.shape, &entry.choices, addr);
        let after = self.book.kind(&self.region.shape, slab);
        self.lists.file(slab, before, after)?;
        Ok(Judgement::Taken)
    }
}

// Whether a slab is the front of the lists, where none is opened.
fn is_front(lists: &Lists, opened: Option<u64>, slab: u64) -> bool
    ensures { IsTrue result ↔ (opened ≡ None → front lists.now.partial.items lists.now.empty.items ≡ Some slab) }
{
    match opened {
        Some(_) => true,
        None => is_option(lists.front(), Some(slab)),
    }
}

// The slab whose kind an accepted free may change.
fn touched(shape: &Shape, choices: &Choices, addr: u64) -> u64
    requires { IsShape shape.now }
    ensures { result ≡ touched shape.now choices.now.released (Returned addr) }
{
    match choices.released {
        Some(released) => slab_of(shape, released),
        None => slab_of(shape, addr),
    }
}

// What stands at a parking index goes out as a retired slab comes, if one does.
fn park(parking: &mut Vec<Option<u64>>, index: u32, retired: Option<u64>) -> Option<u64>
    ensures stood { result ≡ unparked_by retired (slice_index_or parking.old.items index None) }
    ensures parking { parking.new.items ≡ parking_with index retired parking.old.items }
{
    let slab = retired?;
    let at = index as usize;
    if at >= parking.len() {
        return None;
    }
    let stood = parking[at];
    parking[at] = Some(slab);
    stood
}
