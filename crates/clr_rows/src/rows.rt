//! Rows: their values and their shape.

ghost use Rattle.std.specs.Prelude.{◌≡◌, ◌↔◌, ◌≤◌, length, map, IfOk, IsTrue};

use crate::places::Shape;
use crate::texts::Words;
use std::alloc::{AllocError, Global};
use std::marker::Model;

/// A value of a column: a whole number of 64 bits, or a text.
#[derive(Debug, Drop)]
pub enum Value {
    Int(i64),
    Words(Words),
}

impl Value {
    /// Returns a copy of the value.
    pub fn copy(&self) -> Result<Value, AllocError>
        ensures { IfOk result (λ value. value ≡ self.now) }
    {
        match self {
            Value::Int(number) => Ok(Value::Int(*number)),
            Value::Words(text) => Ok(Value::Words(text.copy()?)),
        }
    }

    /// Returns whether both values are of one kind and the same. For example, the number -7 and the text `-7` aren't the same.
    pub fn same(&self, other: &Value) -> bool
        ensures { IsTrue result ↔ (self.now ≡ other.now) }
    {
        match (self, other) {
            (Value::Int(a), Value::Int(b)) => a == b,
            (Value::Words(a), Value::Words(b)) => a.same(b),
            _ => false,
        }
    }
}

/// The values of a row, one for each column, in the order of the columns.
#[derive(Debug, Drop)]
pub struct Values {
    list: Vec<Value>,
}

impl Model for Values {
    ghost use Rattle.std.specs.Prelude.{List};
    ghost use Rattle.clr_rows.specs.declared.rows.Value.{Value as OneValue};

    ghost Value = { List OneValue };

    ghost view = { λ a. a.list.items };
}

impl Values {
    /// Returns the values of this list.
    pub fn new(list: Vec<Value>) -> Values
        ensures { result ≡ list.items }
    {
        Values { list }
    }

    /// Returns the values as a slice.
    pub fn as_slice(&self) -> &[Value]
        ensures { result.now ≡ self.now }
    {
        self.list.as_slice()
    }

    /// Returns the underlying list.
    pub fn into_vec(self) -> Vec<Value>
        ensures { result.items ≡ self }
    {
        self.list
    }

    /// Returns a copy of the list.
    pub fn copy(&self) -> Result<Values, AllocError>
        ensures { IfOk result (λ values. values ≡ self.now) }
    {
        let alloc: Global = *self.list.allocator();
        let mut list = Vec::with_capacity(alloc, self.list.len())?;
        for value in &self.list {
            list.push(value.copy()?)?;
        }
        Ok(Values { list })
    }

    /// Returns whether both lists have the same values in the same order.
    pub fn same(&self, other: &Values) -> bool
        ensures { IsTrue result ↔ (self.now ≡ other.now) }
    {
        if self.list.len() != other.list.len() {
            return false;
        }
        for i in 0..self.list.len() {
            if !self.list[i].same(&other.list[i]) {
                return false;
            }
        }
        true
    }
}

/// A row: its values and its shape.
#[derive(Debug, Drop)]
pub struct Row {
    pub values: Values,
    pub shape: Shape,
}

impl Row {
    /// Returns a copy of the row.
    pub fn copy(&self) -> Result<Row, AllocError>
        ensures { IfOk result (λ row. row ≡ self.now) }
    {
        Ok(Row {
            values: self.values.copy()?,
            shape: self.shape.copy()?,
        })
    }

    /// Returns whether both rows have the same values and shape.
    pub fn same(&self, other: &Row) -> bool
        ensures { IsTrue result ↔ (self.now ≡ other.now) }
    {
        self.values.same(&other.values) && self.shape.same(&other.shape)
    }
}

impl Clone for Row {
    ghost is_clone = { λ a b. a ≡ b };

    fn clone(&self) -> Result<Row, AllocError> {
        self.copy()
    }
}
