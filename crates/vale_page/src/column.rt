//! A block of raw memory: slots side by side, and in each a number and beside it room for a value. Both are columns of cells,
//! which lie a stride apart.
ghost use Rattle.std.specs.Prelude.{◌≡◌, ℕ, ◌<◌, ◌≤◌, ◌*◌, ◌^◌, List, length, replicate, get_or, slice_set, IfOk, ⊤};
ghost use Rattle.std.specs.Borrow.{sem};
ghost use Rattle.std.specs.Coded.{coded_list};
ghost use Rattle.std.specs.Mem.{type_size};
ghost use base.Fml.{ftrue};
ghost use denote.RawPtr.{Ptr};
ghost use prog.Memory.{capped};
ghost use Rattle.vale_page.specs.Cell.{Cell, Empty, Filled, Link, IsFilled, IsLink, IsBare, AreFilled, AreGiven, cell_code};
ghost use Rattle.vale_page.specs.Ownership.{column_own, column_lent, allocation_owns, slot_size};

use std::alloc::{AllocError, Allocator};
use std::marker::{Model, PhantomData, Send, Sync};
use std::mem::{align_of, size_of};

/// Where the first cell of a column begins. It owns nothing.
pub struct Origin<T> {
    ptr: *mut T,
}

impl<T> Clone for Origin<T> {
    ghost is_clone = { λ x y. y ≡ x };

    ghost is_infallible = { λ _. ⊤ };

    fn clone(&self) -> Result<Origin<T>, AllocError> {
        Ok(*self)
    }
}

impl<T> Copy for Origin<T> {}

unsafe impl<T> Send for Origin<T> {}

unsafe impl<T> Sync for Origin<T> {}

/// The owner of a column of cells. It takes no space.
pub struct Column<T, S> {
    mark: PhantomData<*const (T, S)>,
    ghost at: { Ptr },
    ghost cells: { List (Cell T) } by { coded_list (cell_code T.code) },
}

impl<T, S> Model for Column<T, S> {
    ghost also_owns = { λ c. column_own T.row c.at (type_size S.row) c.cells };

    ghost also_shares = { λ c _ κ. column_lent T.row c.at (type_size S.row) c.cells κ };
}

unsafe impl<T: Send, S> Send for Column<T, S> {}

unsafe impl<T: Sync, S> Sync for Column<T, S> {}

/// A slot, as it lies in the block.
pub struct Slot<T> {
    number: u64,
    value: T,
}

/// How many bytes a slot takes, or the most that a `usize` can say.
pub(crate) fn slot_bytes<T>() -> usize
    ensures { result ≡ capped (slot_size T.row) }
{
    size_of::<Slot<T>>()
}

/// The right to give the block of `len` slots at `at` back to `alloc`, and what makes slots of their cells. It takes no space.
pub struct Allocation<T, A: Allocator> {
    mark: PhantomData<*const (T, A)>,
    ghost at: { Ptr },
    ghost len: { ℕ },
    ghost values: { Ptr },
    ghost alloc: { A },
}

impl<T, A: Allocator> Model for Allocation<T, A> {
    ghost also_owns = { λ d. allocation_owns T.row (A.dealloc_token d.alloc) d.at d.len d.values };

    ghost also_shares = { λ _ _ _. ftrue };
}

unsafe impl<T, A: Allocator + Send> Send for Allocation<T, A> {}

// A `&` to it holds nothing.
unsafe impl<T, A: Allocator> Sync for Allocation<T, A> {}

pub(crate) fn allocate<T, A: Allocator>(
    alloc: &A,
    len: usize,
) -> Result<
    (
        Origin<u64>,
        Column<u64, Slot<T>>,
        Origin<T>,
        Column<T, Slot<T>>,
        Allocation<T, A>,
    ),
    AllocError,
>
    requires { (len * slot_size T.row < 2 ^ 63) × (0 < type_size T.row) }
    ensures { IfOk result (λ r. (r.1.at ≡ r.0.ptr) × (r.1.cells ≡ replicate len Empty) × (r.3.at ≡ r.2.ptr) × (r.3.cells ≡ replicate len Empty) × (r.4.at ≡ r.0.ptr) × (r.4.len ≡ len) × (r.4.values ≡ r.2.ptr) × (r.4.alloc ≡ alloc.now)) }
{
    match alloc.allocate(len * size_of::<Slot<T>>(), align_of::<Slot<T>>()) {
        Ok(block) => {
            let slots = block as *mut Slot<T>;
            let value = unsafe { &raw mut (*slots).value };
            let numbers = Origin {
                ptr: block as *mut u64,
            };
            let values = Origin { ptr: value };
            Ok((
                numbers,
                Column { mark: PhantomData },
                values,
                Column { mark: PhantomData },
                Allocation { mark: PhantomData },
            ))
        }
        Err(error) => Err(error),
    }
}

pub(crate) fn deallocate<T, A: Allocator>(
    alloc: &A,
    base: Origin<u64>,
    len: usize,
    numbers: Column<u64, Slot<T>>,
    values: Column<T, Slot<T>>,
    allocation: Allocation<T, A>,
)
    requires { (numbers.at ≡ base.ptr) × (length numbers.cells ≡ len) × (values.at ≡ allocation.values) × (length values.cells ≡ len) × IsBare values.cells × (allocation.at ≡ base.ptr) × (allocation.len ≡ len) × (allocation.alloc ≡ alloc.now) }
{
    let Column { mark: _ } = numbers;
    let Column { mark: _ } = values;
    let Allocation { mark: _ } = allocation;
    unsafe {
        alloc.deallocate(
            base.ptr as *mut u8,
            len * size_of::<Slot<T>>(),
            align_of::<Slot<T>>(),
        );
    }
}

impl<T, S> Column<T, S> {
    ghost use Rattle.vale_page.specs.ColumnLends.{lends_cell};

    pub(crate) fn write(&mut self, base: Origin<T>, index: usize, item: T)
        requires { (base.ptr ≡ self.old.at) × (index < length self.old.cells) × (get_or self.old.cells index Empty ≡ Empty) }
        ensures { (self.new.at ≡ self.old.at) × (self.new.cells ≡ slice_set self.old.cells index (Filled item)) }
    {
        unsafe {
            let place = (base.ptr as *mut u8).add(index * size_of::<S>()) as *mut T;
            place.write(item)
        }
    }

    pub(crate) fn read(&mut self, base: Origin<T>, index: usize) -> T
        requires { (base.ptr ≡ self.old.at) × IsFilled self.old.cells index }
        ensures value { get_or self.old.cells index Empty ≡ Filled result }
        ensures cells { (self.new.at ≡ self.old.at) × (self.new.cells ≡ slice_set self.old.cells index Empty) }
    {
        unsafe {
            let place = (base.ptr as *mut u8).add(index * size_of::<S>()) as *mut T;
            place.read()
        }
    }

    pub(crate) fn get(&self, base: Origin<T>, index: usize) -> &T
        requires { (base.ptr ≡ self.now.at) × IsFilled self.now.cells index }
        ensures { get_or self.now.cells index Empty ≡ Filled result.now }
    {
        unsafe {
            let place = (base.ptr as *mut u8).add(index * size_of::<S>()) as *mut T;
            &*place
        }
    }

    pub(crate) fn get_mut(&mut self, base: Origin<T>, index: usize) -> &mut T
        requires { (base.ptr ≡ self.old.at) × IsFilled self.old.cells index }
        ensures* writes_back { sem 𝓛 (lends_cell T.row S.row self.entry index result) }
        ensures value { get_or self.old.cells index Empty ≡ Filled result.now }
    {
        unsafe {
            let place = (base.ptr as *mut u8).add(index * size_of::<S>()) as *mut T;
            &mut *place
        }
    }

    /// Writes a number into the first byte of an empty cell.
    pub(crate) fn put_link(&mut self, base: Origin<T>, index: usize, next: u8)
        requires { (base.ptr ≡ self.old.at) × (index < length self.old.cells) × (get_or self.old.cells index Empty ≡ Empty) }
        ensures { (self.new.at ≡ self.old.at) × (self.new.cells ≡ slice_set self.old.cells index (Link next)) }
    {
        unsafe {
            let place = (base.ptr as *mut u8).add(index * size_of::<S>());
            place.write(next)
        }
    }

    /// Reads the number that a cell holds, which is room for a value again then.
    pub(crate) fn take_link(&mut self, base: Origin<T>, index: usize) -> u8
        requires { (base.ptr ≡ self.old.at) × IsLink self.old.cells index }
        ensures value { get_or self.old.cells index Empty ≡ Link result }
        ensures cells { (self.new.at ≡ self.old.at) × (self.new.cells ≡ slice_set self.old.cells index Empty) }
    {
        unsafe {
            let place = (base.ptr as *mut u8).add(index * size_of::<S>());
            place.read()
        }
    }
}

impl<S> Column<u64, S> {
    /// Gives the first `count` cells, which hold numbers, this number.
    pub(crate) fn fill(&mut self, base: Origin<u64>, count: usize, number: u64)
        requires { (base.ptr ≡ self.old.at) × AreFilled self.old.cells count }
        ensures { (self.new.at ≡ self.old.at) × AreGiven self.old.cells self.new.cells count number }
    {
        for index in 0..count {
            *self.get_mut(base, index) = number;
        }
    }
}
