//! Data sets.

use crate::copying::{copy_element, copy_set};
use crate::listing::{is_listed, sorted_numbers};
use crate::measuring::value_depth;
use crate::merging::merged;
use crate::putting::{place_of, put, stands_at};
use crate::tag::Tag;
use crate::value_bytes::ValueBytes;
use crate::vr::Vr;
use crate::writing::set_size;
use std::alloc::{AllocError, Allocator};
use std::marker::Model;
use ups_pdu::TransferSyntax;

/// The value of an element: bytes, or the items of a sequence (PS3.5 section 7.5).
#[derive(Drop)]
#[cycle(set)]
pub enum Value<A: Allocator + Copy> {
    /// The bytes of a value, as they are encoded in a message.
    Bytes(ValueBytes<A>),
    /// The items of a sequence.
    Items(Vec<DataSet<A>, A>),
}

/// A data element (PS3.5 section 7.1).
#[derive(Drop)]
#[cycle(set)]
pub struct Element<A: Allocator + Copy> {
    /// The tag of the attribute.
    pub tag: Tag,
    /// The value representation (VR).
    pub vr: Vr,
    /// The value.
    pub value: Value<A>,
}

/// A data set (PS3.5 section 7): elements in strictly ascending order of tags. Contracts see it as the list of its
/// elements, which always form a data set.
#[cycle(set)]
pub struct DataSet<A: Allocator + Copy> {
    pub(crate) elements: Vec<Element<A>, A>,
}

impl<A: Allocator + Copy> Drop for DataSet<A> {
    #[cycle(set)]
    fn drop(self) {
        let DataSet { elements: _ } = self;
    }
}

impl<A: Allocator + Copy> Model for DataSet<A> {
    ghost use Rattle.std.specs.Prelude.{List};
    ghost use Rattle.ups_dataset.specs.Data.{El, weight};

    ghost Value = { List El };

    ghost use Rattle.ups_dataset.specs.Code.{set_code};

    ghost coded = { set_code };

    ghost use Rattle.std.specs.Prelude.{map};
    ghost use Rattle.ups_dataset.specs.View.{element_view};

    ghost view = { λ s. map element_view s.elements.items };

    ghost use Rattle.ups_dataset.specs.Held.{HoldsSet};

    ghost invariant = { λ s. HoldsSet ⟦<A as Allocator>⟧ (map element_view s.elements.items) };

    ghost size = { weight };

    ghost use Rattle.ups_dataset.specs.Falls.{elements_fall};

    ghost size_decreases = { λ a h. elements_fall ⟦<A as Allocator>⟧ a.elements.items };
}

impl<A: Allocator + Copy> DataSet<A> {
    ghost use Rattle.std.specs.Prelude.{◌≡◌, [], map, filter, length, min, None, Some, MatchOption, IfOk, OnOk, OnErr, not};
    ghost use Rattle.ups_dataset.specs.Tag.{is_tag};
    ghost use Rattle.ups_pdu.specs.declared.syntax.TransferSyntax.TheVariants.{Explicit};
    ghost use Rattle.ups_dataset.specs.View.{element_view};
    ghost use Rattle.ups_dataset.specs.Data.{element_at, put, laid_over, is_listed, answer_to, answer};
    ghost use Rattle.ups_dataset.specs.Valid.{IsDataSet, IsElement};
    ghost use Rattle.ups_dataset.specs.Written.{written};

    /// Returns an empty data set, without allocating memory.
    pub fn new(alloc: A) -> DataSet<A>
        ensures { result ≡ [] }
    {
        DataSet {
            elements: Vec::new(alloc),
        }
    }

    /// Returns the data set of these elements.
    pub(crate) fn from_vec(elements: Vec<Element<A>, A>) -> DataSet<A>
        requires { IsDataSet (map element_view elements.items) }
        ensures { result ≡ map element_view elements.items }
    {
        DataSet { elements }
    }

    /// Does nothing at run time: its contract tells a proof that the elements are a data set.
    pub fn is_a_data_set(&self)
        ensures { IsDataSet self.now }
    {
        let _ = &self.elements;
    }

    /// Returns the allocator of the data set.
    pub fn allocator(&self) -> A {
        *self.elements.allocator()
    }

    /// Returns the elements, in the order of their tags.
    pub fn elements(&self) -> &[Element<A>]
        ensures { map element_view result.now ≡ self.now }
    {
        self.elements.as_slice()
    }

    /// Returns the element with this tag, if there is one.
    pub fn get(&self, tag: Tag) -> Option<&Element<A>>
        ensures { MatchOption result (element_at tag self.now ≡ None) (λ e. element_at tag self.now ≡ Some (element_view e.now)) }
    {
        let place = place_of(&self.elements, tag);
        if !stands_at(&self.elements, place, tag) {
            return None;
        }
        Some(&self.elements[place])
    }

    /// Returns the number of bytes of the data set in Explicit VR Little Endian, or the greatest `u64` if there are
    /// more.
    pub fn size(&self) -> u64
        ensures { result ≡ min (length (written Explicit self.now)) u64.MAX }
    {
        set_size(TransferSyntax::Explicit, self)
    }

    /// Inserts an element in the order of tags, replacing the element with the same tag if there is one.
    ///
    /// # Errors
    ///
    /// If memory runs out. The data set is then unchanged.
    pub fn replace(&mut self, element: Element<A>) -> Result<(), AllocError>
        requires { IsElement (element_view element) }
        ensures ok { OnOk result (self.new ≡ put (element_view element) self.old) }
        ensures err { OnErr result (self.new ≡ self.old) }
    {
        element.value.items_are_sets();
        put(&mut self.elements, element)
    }

    /// Lays this data set over another: returns copies of its elements, and of those in `below` with other tags.
    ///
    /// # Errors
    ///
    /// If memory runs out.
    pub fn laid_over(&self, below: &DataSet<A>) -> Result<DataSet<A>, AllocError>
        ensures { IfOk result (λ s. s ≡ laid_over self.now below.now) }
    {
        let alloc = *self.elements.allocator();
        let elements = merged(alloc, &self.elements, &below.elements)?;
        Ok(DataSet::from_vec(elements))
    }

    /// Returns a copy of the elements with these tags.
    ///
    /// # Errors
    ///
    /// If memory runs out.
    pub fn project(&self, tags: &[Tag]) -> Result<DataSet<A>, AllocError>
        ensures { IfOk result (λ s. s ≡ filter (λ e. is_listed e.tag tags.now) self.now) }
    {
        let alloc = *self.elements.allocator();
        let numbers = sorted_numbers(alloc, tags)?;
        let mut elements = Vec::new(alloc);
        for element in &self.elements {
            if is_listed(&numbers, element.tag) {
                elements.push(copy_element(alloc, element)?)?;
            }
        }
        Ok(DataSet::from_vec(elements))
    }

    /// Returns a copy of the elements with other tags than this one, and room for `room` elements more.
    ///
    /// # Errors
    ///
    /// If memory runs out.
    pub fn without(&self, tag: Tag, room: usize) -> Result<DataSet<A>, AllocError>
        ensures { IfOk result (λ s. s ≡ filter (λ e. not (is_tag e.tag tag)) self.now) }
    {
        let alloc = *self.elements.allocator();
        let mut elements = Vec::with_capacity(alloc, self.elements.len().saturating_add(room))?;
        for element in &self.elements {
            if element.tag != tag {
                elements.push(copy_element(alloc, element)?)?;
            }
        }
        Ok(DataSet::from_vec(elements))
    }

    /// Removes the element with this tag, if there is one, without allocating memory.
    pub fn remove(&mut self, tag: Tag)
        ensures { self.new ≡ filter (λ e. not (is_tag e.tag tag)) self.old }
    {
        self.elements.retain(|element| element.tag != tag);
    }

    /// Returns a copy of the element with the tag of `key`, or `key` without a value if there is no such element.
    fn answer_to(&self, key: &Element<A>) -> Result<Element<A>, AllocError>
        ensures { IfOk result (λ e. element_view e ≡ answer_to self.now (element_view key.now)) }
    {
        let alloc = *self.elements.allocator();
        match self.get(key.tag) {
            Some(element) => copy_element(alloc, element),
            None => Ok(key.without_value(alloc)),
        }
    }

    /// Returns the answer of this data set to a request: for each element of `keys`, a copy of the element with the
    /// same tag, or the key without a value if there is none (PS3.4 section C.4.1.1.3.2).
    ///
    /// # Errors
    ///
    /// If memory runs out.
    pub fn answer(&self, keys: &DataSet<A>) -> Result<DataSet<A>, AllocError>
        ensures { IfOk result (λ s. s ≡ answer self.now keys.now) }
    {
        let alloc = *self.elements.allocator();
        let mut elements = Vec::with_capacity(alloc, keys.elements.len())?;
        for key in &keys.elements {
            elements.push(self.answer_to(key)?)?;
        }
        Ok(DataSet::from_vec(elements))
    }

    /// Returns a copy of the data set.
    ///
    /// # Errors
    ///
    /// If memory runs out.
    pub fn copy(&self) -> Result<DataSet<A>, AllocError>
        ensures { IfOk result (λ s. s ≡ self.now) }
    {
        copy_set(*self.elements.allocator(), self)
    }
}

impl<A: Allocator + Copy> Element<A> {
    ghost use Rattle.std.specs.Prelude.{◌≡◌};
    ghost use Rattle.ups_dataset.specs.declared.vr.Vr.TheVariants.{Sq};
    ghost use Rattle.ups_dataset.specs.Data.{bytes, items, items_of, without_value};
    ghost use Rattle.ups_dataset.specs.View.{element_view, value_view};

    /// Returns an element that holds bytes.
    pub fn of_bytes(tag: Tag, vr: Vr, value: ValueBytes<A>) -> Element<A>
        ensures { element_view result ≡ record { tag = tag; vr = vr; value = bytes value } }
    {
        Element {
            tag,
            vr,
            value: Value::Bytes(value),
        }
    }

    /// Returns a sequence of these items.
    pub fn of_items(tag: Tag, sets: Vec<DataSet<A>, A>) -> Element<A>
        ensures { element_view result ≡ record { tag = tag; vr = Sq; value = items (items_of sets.items) } }
    {
        Element {
            tag,
            vr: Vr::Sq,
            value: Value::Items(sets),
        }
    }

    /// Returns this element without a value (no bytes, or a sequence without items), without allocating memory.
    pub(crate) fn without_value(&self, alloc: A) -> Element<A>
        ensures { element_view result ≡ record { tag = self.now.tag; vr = self.now.vr; value = without_value (value_view self.now.value) } }
    {
        let value = match &self.value {
            Value::Bytes(_) => Value::Bytes(ValueBytes::empty()),
            Value::Items(_) => Value::of_items(Vec::new(alloc)),
        };
        Element {
            tag: self.tag,
            vr: self.vr,
            value,
        }
    }
}

impl<A: Allocator + Copy> Value<A> {
    ghost use Rattle.std.specs.Prelude.{◌≡◌, map};
    ghost use Rattle.ups_dataset.specs.Data.{items, items_of};
    ghost use Rattle.ups_dataset.specs.Valid.{depth_data, HoldsSets};
    ghost use Rattle.ups_dataset.specs.View.{value_view};

    /// Returns the value of a sequence of these items.
    pub(crate) fn of_items(sets: Vec<DataSet<A>, A>) -> Value<A>
        ensures { value_view result ≡ items (items_of sets.items) }
    {
        Value::Items(sets)
    }

    /// Returns how deep the items nest: 0 for bytes or no items, 1 for items without further items, and so on.
    pub fn depth(&self) -> u8
        ensures { result ≡ depth_data (value_view self.now) }
    {
        value_depth(self)
    }

    /// Changes nothing: its contract tells a proof that the items are data sets.
    pub(crate) fn items_are_sets(&self)
        ensures { HoldsSets (value_view self.now) }
    {
        if let Value::Items(sets) = self {
            for set in sets {
                set.is_a_data_set();
            }
        }
    }
}
