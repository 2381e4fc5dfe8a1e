//! What a book says of the slot at an address.
ghost use Rattle.std.specs.Prelude.{◌≡◌, ◌==◌, ◌↔◌, IsTrue};
ghost use Rattle.std.specs.List.{list_any};
ghost use Rattle.hm_model.specs.Maps.{among};
ghost use Rattle.hm_sizes.specs.Shapes.{IsShape};
ghost use Rattle.hm_class_rules.specs.State.{is_live, is_taken};
ghost use Rattle.hm_class_rules.specs.Rules.{IsLiveBlock, IsNoSlot, IsUnused, IsDoubleFree};
ghost use Rattle.hm_class_book.specs.Book.{state_in};

use crate::book::{Book, is_among};
use crate::places::is_place;
use hm_sizes::Shape;

// Whether a block begins at an address.
fn has_block(live: &[(u64, u64)], addr: u64) -> bool
    ensures { result ≡ list_any (λ e. e.0 == addr) live.now }
{
    for (block, _) in live {
        if *block == addr {
            return true;
        }
    }
    false
}

impl Book {
    fn was_given(&self, addr: u64) -> bool
        ensures { result ≡ among addr (state_in self.now).given }
    {
        self.given.contains(&addr)
    }

    /// Whether a live block begins at an address.
    pub fn is_live(&self, addr: u64) -> bool
        ensures { result ≡ is_live (state_in self.now) addr }
    {
        has_block(&self.live, addr)
    }

    fn is_quarantined(&self, addr: u64) -> bool
        ensures { result ≡ among addr (state_in self.now).quarantined }
    {
        is_among(&self.quarantined, addr)
    }

    fn is_condemned(&self, addr: u64) -> bool
        ensures { result ≡ among addr (state_in self.now).condemned }
    {
        is_among(&self.condemned, addr)
    }

    /// Whether the slot at an address is live, in quarantine or condemned.
    pub fn is_taken(&self, addr: u64) -> bool
        ensures { result ≡ is_taken (state_in self.now) addr }
    {
        let live = self.is_live(addr);
        let quarantined = self.is_quarantined(addr);
        let condemned = self.is_condemned(addr);
        live | (quarantined | condemned)
    }

    /// Whether an address is no place.
    pub fn is_no_slot(&self, shape: &Shape, addr: u64) -> bool
        requires { IsShape shape.now }
        ensures { IsTrue result ↔ IsNoSlot shape.now (state_in self.now) addr }
    {
        !is_place(shape, addr)
    }

    /// Whether an address is a place that was never given.
    pub fn is_unused(&self, shape: &Shape, addr: u64) -> bool
        requires { IsShape shape.now }
        ensures { IsTrue result ↔ IsUnused shape.now (state_in self.now) addr }
    {
        let place = is_place(shape, addr);
        let given = self.was_given(addr);
        place & !given
    }

    /// Whether an address is a place that was given and is not live.
    pub fn is_double_free(&self, shape: &Shape, addr: u64) -> bool
        requires { IsShape shape.now }
        ensures { IsTrue result ↔ IsDoubleFree shape.now (state_in self.now) addr }
    {
        let place = is_place(shape, addr);
        let given = self.was_given(addr);
        let live = self.is_live(addr);
        place & given & !live
    }

    /// Whether an address is that of a live block.
    pub fn is_live_block(&self, shape: &Shape, addr: u64) -> bool
        requires { IsShape shape.now }
        ensures { IsTrue result ↔ IsLiveBlock shape.now (state_in self.now) addr }
    {
        let place = is_place(shape, addr);
        let given = self.was_given(addr);
        let live = self.is_live(addr);
        place & given & live
    }
}
