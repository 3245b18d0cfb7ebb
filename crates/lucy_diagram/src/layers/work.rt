// How layers are found, place by place.
ghost use Rattle.std.specs.Prelude.{ℕ, List, ◌≡◌, ◌+◌, ◌-◌, ◌^◌, ◌<◌, ◌≤◌, ◌↔◌, ◌++◌, ◌∷◌, [], Some, None, length, max, replicate, filter, slice_get, slice_index, slice_set, IsTrue, IfOk, OnOk};
ghost use Rattle.lucy_diagram.specs.Layers.{gap, IsLeft, with_layer, Finds};
ghost use Rattle.lucy_diagram.specs.Layering.{count_to, is_from, left_of, AreChained, AreFree, IsFreed, Counts, ArePassed};

use crate::layers::ways::{Chains, Way, at, gap, set, way_at};
use std::alloc::{AllocError, Global};

/// How far the layers are found.
#[derive(Drop)]
pub(crate) struct Work {
    /// The layer of each place, where it is found.
    pub found: Vec<Option<usize>>,
    /// The least layer of each place behind those that are found.
    pub least: Vec<usize>,
    /// How many ways to each place come from places that are left.
    pub waits: Vec<usize>,
    /// The places that are left and stand behind none that is.
    pub free: Vec<usize>,
}

// No layer for each of so many places.
fn none_found(alloc: Global, count: usize) -> Result<Vec<Option<usize>>, AllocError>
    ensures { IfOk result (λ v. v.items ≡ replicate count None) }
{
    let mut found = Vec::new(alloc);
    'each: for _ in 0..count {
        found.push(None)?;
    }
    Ok(found)
}

// Whether a place is left.
fn is_left(found: &[Option<usize>], place: usize) -> bool
    ensures { IsTrue result ↔ IsLeft found.now place }
{
    match found.get(place) {
        Some(layer) => layer.is_none(),
        None => false,
    }
}

// Whether a place is left and waits for none.
fn is_free(found: &[Option<usize>], waits: &[usize], place: usize) -> bool
    ensures { IsTrue result ↔ (IsLeft found.now place × (slice_index waits.now place ≡ 0)) }
{
    is_left(found, place) && at(waits, place) == 0
}

// Puts a place last, where it is left and waits for none.
fn put_free(
    found: &[Option<usize>],
    waits: &[usize],
    place: usize,
    free: &mut Vec<usize>,
) -> Result<(), AllocError>
    ensures { OnOk result (IsFreed found.now waits.now place free.old.items free.new.items) }
{
    if !is_free(found, waits, place) {
        return Ok(());
    }
    free.push(place)?;
    Ok(())
}

// The places that are left and wait for none, in order.
fn free_of(
    alloc: Global,
    found: &[Option<usize>],
    waits: &[usize],
) -> Result<Vec<usize>, AllocError>
    ensures { IfOk result (λ v. AreFree found.now waits.now (length found.now) v.items) }
{
    let mut free = Vec::new(alloc);
    'each: for place in 0..found.len() {
        put_free(found, waits, place, &mut free)?;
    }
    Ok(free)
}

// How many ways lead to each of so many places.
fn waits_of(alloc: Global, ways: &[Way], count: usize) -> Result<Vec<usize>, AllocError>
    ensures each { IfOk result (λ v. (q : ℕ) → q < count → slice_index v.items q ≡ count_to q ways.now) }
    ensures count { IfOk result (λ v. length v.items ≡ count) }
{
    let mut waits = vec![in alloc; 0usize; count]?;
    'each: for i in 0..ways.len() {
        let to = way_at(ways, i).to;
        let number = at(&waits, to) + 1;
        set(&mut waits, to, number);
    }
    Ok(waits)
}

// Raises the layer of a place to this one, where it is lower.
fn raise(least: &mut [usize], place: usize, layer: usize)
    ensures { least.new ≡ slice_set least.old place (max (slice_index least.old place) layer) }
{
    let number = at(least, place).max(layer);
    set(least, place, number);
}

// Counts one way less to a place.
fn lower(waits: &mut [usize], place: usize)
    ensures { waits.new ≡ slice_set waits.old place (slice_index waits.old place - 1) }
{
    let number = at(waits, place).saturating_sub(1);
    set(waits, place, number);
}

// Takes the layer of a place as found.
fn find(found: &mut [Option<usize>], place: usize, layer: usize)
    requires { place < length found.old }
    ensures { found.new ≡ slice_set found.old place (Some layer) }
{
    found[place] = Some(layer);
}

impl Work {
    /// The beginning: no layer is found.
    pub(crate) fn new(alloc: Global, ways: &[Way], count: usize) -> Result<Work, AllocError>
        ensures found { IfOk result (λ work. work.found.items ≡ replicate count None) }
        ensures counts { IfOk result (λ work. Counts ways.now [] 0 work.found.items work.least.items work.waits.items) }
        ensures free { IfOk result (λ work. AreFree work.found.items work.waits.items (length work.found.items) work.free.items) }
    {
        let found = none_found(alloc, count)?;
        let waits = waits_of(alloc, ways, count)?;
        let free = free_of(alloc, &found, &waits)?;
        let least = vec![in alloc; 0usize; count]?;
        Ok(Work {
            found,
            least,
            waits,
            free,
        })
    }

    // Goes a way from a place of this layer.
    fn go(&mut self, way: &Way, layer: usize) -> Result<(), AllocError>
        requires { layer + 1 < 2 ^ 64 }
        ensures found { self.new.found.items ≡ self.old.found.items }
        ensures least { self.new.least.items ≡ slice_set self.old.least.items way.now.to (max (slice_index self.old.least.items way.now.to) (layer + gap way.now)) }
        ensures waits { self.new.waits.items ≡ slice_set self.old.waits.items way.now.to (slice_index self.old.waits.items way.now.to - 1) }
        ensures free { OnOk result (IsFreed self.new.found.items self.new.waits.items way.now.to self.old.free.items self.new.free.items) }
    {
        let least = layer + gap(way);
        raise(&mut self.least, way.to, least);
        lower(&mut self.waits, way.to);
        put_free(&self.found, &self.waits, way.to, &mut self.free)?;
        Ok(())
    }

    // Goes all ways from a place of this layer, last first.
    fn pass(
        &mut self,
        place: usize,
        layer: usize,
        ways: &[Way],
        chains: &Chains,
    ) -> Result<(), AllocError>
        requires place { place < length chains.now.last.items }
        requires chained { AreChained ways.now (length ways.now) chains.now.last.items chains.now.before.items }
        requires counts { Counts ways.now (filter (is_from place) ways.now) layer self.old.found.items self.old.least.items self.old.waits.items }
        requires free { AreFree self.old.found.items self.old.waits.items (length self.old.found.items) self.old.free.items }
        requires low { layer + 1 + left_of self.old.found.items ≤ length self.old.found.items }
        ensures found { self.new.found.items ≡ self.old.found.items }
        ensures counts { OnOk result (Counts ways.now [] 0 self.new.found.items self.new.least.items self.new.waits.items) }
        ensures free { OnOk result (AreFree self.new.found.items self.new.waits.items (length self.new.found.items) self.new.free.items) }
    {
        let mut number = at(&chains.last, place);
        'each: while number > 0 {
            self.go(way_at(ways, number - 1), layer)?;
            number = at(&chains.before, number - 1);
        }
        Ok(())
    }

    // Finds the layer of a place that is left.
    fn take(&mut self, place: usize, ways: &[Way], chains: &Chains) -> Result<(), AllocError>
        requires left { IsLeft self.old.found.items place }
        requires chained { AreChained ways.now (length ways.now) chains.now.last.items chains.now.before.items }
        requires count { length chains.now.last.items ≡ length self.old.found.items }
        requires counts { Counts ways.now [] 0 self.old.found.items self.old.least.items self.old.waits.items }
        requires free { AreFree (with_layer ways.now self.old.found.items place) self.old.waits.items (length self.old.found.items) self.old.free.items }
        ensures found { OnOk result (self.new.found.items ≡ with_layer ways.now self.old.found.items place) }
        ensures counts { OnOk result (Counts ways.now [] 0 self.new.found.items self.new.least.items self.new.waits.items) }
        ensures free { OnOk result (AreFree self.new.found.items self.new.waits.items (length self.new.found.items) self.new.free.items) }
    {
        let layer = at(&self.least, place);
        find(&mut self.found, place, layer);
        self.pass(place, layer, ways, chains)?;
        Ok(())
    }

    /// Finds the layers of places that stand behind none that is left, as long as there are some.
    pub(crate) fn settle(&mut self, ways: &[Way], chains: &Chains) -> Result<(), AllocError>
        requires chained { AreChained ways.now (length ways.now) chains.now.last.items chains.now.before.items }
        requires count { length chains.now.last.items ≡ length self.old.found.items }
        requires counts { Counts ways.now [] 0 self.old.found.items self.old.least.items self.old.waits.items }
        requires free { AreFree self.old.found.items self.old.waits.items (length self.old.found.items) self.old.free.items }
        ensures counts { OnOk result (Counts ways.now [] 0 self.new.found.items self.new.least.items self.new.waits.items) }
        ensures free { OnOk result (AreFree self.new.found.items self.new.waits.items (length self.new.found.items) []) }
        ensures none { OnOk result (self.new.free.items ≡ []) }
        ensures finds { (spares : List ℕ) → OnOk result (Finds ways.now spares self.old.found.items self.new.found.items) }
    {
        'each: while let Some(place) = self.free.pop() {
            self.take(place, ways, chains)?;
        }
        Ok(())
    }

    /// Finds the layer of a spare place, by its number from 0, where it is left, and of those that then stand behind none.
    pub(crate) fn take_spare(
        &mut self,
        spares: &[usize],
        number: usize,
        ways: &[Way],
        chains: &Chains,
    ) -> Result<(), AllocError>
        requires number { number < length spares.now }
        requires chained { AreChained ways.now (length ways.now) chains.now.last.items chains.now.before.items }
        requires passed { ArePassed ways.now spares.now (length chains.now.last.items) number self.old }
        ensures { OnOk result (ArePassed ways.now spares.now (length chains.now.last.items) (number + 1) self.new) }
    {
        let place = at(spares, number);
        if !is_left(&self.found, place) {
            return Ok(());
        }
        self.take(place, ways, chains)?;
        self.settle(ways, chains)?;
        Ok(())
    }
}
