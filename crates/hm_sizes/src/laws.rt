//! Laws of sizes, shapes and places. Each function does nothing: its contract is the law.
ghost use Rattle.hm_sizes.specs.Laws.{
  ChoosesMultiples,
  HomesOfLarge,
  HomesOfPlaces,
  HomesOfRegions,
  HomesOfSlabs,
  LargeSharesNone,
  LargeSizes,
  PagesAligned,
  PlacesAligned,
  ReadsPlaces,
  RegionsApart,
  RegionsBelow,
  RegionsShareNone,
  ReservesItsSpace,
  SizesAgree,
  SizesAscend,
  SkipsGuards,
  SlabsLieWithin,
  TestsPlaces,
};

/// A later class has greater blocks, and a request's block has the size of the kind to which it goes.
pub fn size_laws()
    ensures ascend { SizesAscend }
    ensures agree { SizesAgree }
{}

/// The size of a large block holds the request, is whole pages, and is not above the greatest request.
pub fn large_laws()
    ensures { LargeSizes }
{}

/// The test of an address finds exactly the places, each of which has one slab and one slot.
pub fn place_laws()
    ensures tests { TestsPlaces }
    ensures reads { ReadsPlaces }
{}

/// Slab numbers that follow one another leave out the guards, and only these.
pub fn guard_law()
    ensures { SkipsGuards }
{}

/// Each slab lies in the address space of its region, and these lie apart from one another and from the
/// large space.
pub fn region_laws()
    ensures within { SlabsLieWithin }
    ensures apart { RegionsApart }
    ensures below { RegionsBelow }
{}

/// The home of each byte that a region reserves, of each slab and of each place, is that region, and that
/// of each byte of the large space the large one; no two regions share an address.
pub fn home_laws()
    ensures reserved { ReservesItsSpace }
    ensures regions { HomesOfRegions }
    ensures slabs { HomesOfSlabs }
    ensures places { HomesOfPlaces }
    ensures large { HomesOfLarge }
    ensures apart { RegionsShareNone }
    ensures apart_large { LargeSharesNone }
{}

/// A block of the class that was chosen for an alignment begins at a multiple of it; and so does one that
/// begins at a multiple of the alignment and of a page, as a large one does.
pub fn aligned_laws()
    ensures chosen { ChoosesMultiples }
    ensures places { PlacesAligned }
    ensures pages { PagesAligned }
{}
