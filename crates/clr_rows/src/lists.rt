//! Lists of which a contract sees the elements alone.

ghost use Rattle.std.specs.Prelude.{◌≡◌, ◌++◌, ◌∷◌, [], OnOk, OnErr, IfErr};

use std::alloc::AllocFailed;
use std::marker::Model;

/// Elements in an order. A contract sees them alone, where of a bare `Vec` in a struct it sees its pointer and its capacity too.
#[derive(Debug, Drop)]
pub struct List<T> {
    list: Vec<T>,
}

impl<T> Model for List<T> {
    ghost use Rattle.std.specs.Coded.{coded_list};
    ghost use Rattle.std.specs.Prelude.{List as Elements};

    ghost Value = { Elements T };

    ghost coded = { coded_list T.code };

    ghost view = { λ a. a.list.items };
}

impl<T> List<T> {
    /// Returns the list of these elements.
    pub fn new(list: Vec<T>) -> List<T>
        ensures { result ≡ list.items }
    {
        List { list }
    }

    /// Returns the elements as a slice.
    pub fn as_slice(&self) -> &[T]
        ensures { result.now ≡ self.now }
    {
        self.list.as_slice()
    }

    /// Returns the underlying list.
    pub fn into_vec(self) -> Vec<T>
        ensures { result.items ≡ self }
    {
        self.list
    }

    /// Adds an element behind the others. If memory runs out, nothing changes, and the error gives the element back.
    pub fn push(&mut self, element: T) -> Result<(), AllocFailed<T>>
        ensures ok { OnOk result (self.new ≡ self.old ++ element ∷ []) }
        ensures err { OnErr result (self.new ≡ self.old) }
        ensures given_back { IfErr result (λ failed. failed.value ≡ element) }
    {
        self.list.push(element)
    }
}
