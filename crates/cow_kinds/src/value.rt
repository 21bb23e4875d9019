// The kinds side by side: each call goes to that of its kind.
ghost use Rattle.std.proofs.Common.{refl};
ghost use Rattle.std.specs.Prelude.{true};
ghost use Rattle.cow_kinds.specs.Values as values;

use crate::rebase::rebase;
use cow_cell::{Holder, Stock};
use cow_elements::Element;
use cow_lazy::Operand;
use cow_model::{Kind, Literal, NoMemory, Refusal, Statement, Verb};
use cow_rule::Rule;
use cow_value::{Collection, Holds, Meets, Shown, Values};
use cow_views::Views;
use kind_array::{ArrayValue, SliceValue};
use kind_deque::DequeValue;
use kind_dict::DictValue;
use kind_heap::HeapValue;
use kind_odict::OrderedDictValue;
use kind_oset::OrderedSetValue;
use kind_set::SetValue;
use kind_views::look;
use std::alloc::Global;

/// A value of any kind that is built.
#[derive(Drop)]
pub enum Value<T: Element<Q>, Q: Stock> {
    Array(ArrayValue<T, Q>),
    Slice(SliceValue<T, Q>),
    Deque(DequeValue<T, Q>),
    Set(SetValue<T, Q>),
    Dict(DictValue<T, Q>),
    OSet(OrderedSetValue<T, Q>),
    ODict(OrderedDictValue<T, Q>),
    Heap(HeapValue<T, Q>),
}

// The call of each kind.
macro_rules! each {
    ($value:expr, $it:ident => $call:expr) => {
        match $value {
            Value::Array($it) => $call,
            Value::Slice($it) => $call,
            Value::Deque($it) => $call,
            Value::Set($it) => $call,
            Value::Dict($it) => $call,
            Value::OSet($it) => $call,
            Value::ODict($it) => $call,
            Value::Heap($it) => $call,
        }
    };
}

// A value of the same kind.
macro_rules! alike {
    ($value:expr, $it:ident => $call:expr) => {
        match $value {
            Value::Array($it) => Value::Array($call),
            Value::Slice($it) => Value::Slice($call),
            Value::Deque($it) => Value::Deque($call),
            Value::Set($it) => Value::Set($call),
            Value::Dict($it) => Value::Dict($call),
            Value::OSet($it) => Value::OSet($call),
            Value::ODict($it) => Value::ODict($call),
            Value::Heap($it) => Value::Heap($call),
        }
    };
}

impl<T: Element<Q>, Q: Stock> Shown for Value<T, Q> {
    ghost seen = { values.seen };

    ghost counted = { T.is_counted };

    ghost is_kind = { λ value. true };
}

impl<T: Element<Q>, Q: Stock> Holds<ArrayValue<T, Q>> for Value<T, Q> {
    fn as_kind(&self) -> Option<&ArrayValue<T, Q>> {
        match self {
            Value::Array(kind) => Some(kind),
            _ => None,
        }
    }

    fn of(kind: ArrayValue<T, Q>) -> Value<T, Q> {
        Value::Array(kind)
    }
}

impl<T: Element<Q>, Q: Stock> Holds<SliceValue<T, Q>> for Value<T, Q> {
    fn as_kind(&self) -> Option<&SliceValue<T, Q>> {
        match self {
            Value::Slice(kind) => Some(kind),
            _ => None,
        }
    }

    fn of(kind: SliceValue<T, Q>) -> Value<T, Q> {
        Value::Slice(kind)
    }
}

impl<T: Element<Q>, Q: Stock> Holds<DequeValue<T, Q>> for Value<T, Q> {
    fn as_kind(&self) -> Option<&DequeValue<T, Q>> {
        match self {
            Value::Deque(kind) => Some(kind),
            _ => None,
        }
    }

    fn of(kind: DequeValue<T, Q>) -> Value<T, Q> {
        Value::Deque(kind)
    }
}

impl<T: Element<Q>, Q: Stock> Holds<SetValue<T, Q>> for Value<T, Q> {
    fn as_kind(&self) -> Option<&SetValue<T, Q>> {
        match self {
            Value::Set(kind) => Some(kind),
            _ => None,
        }
    }

    fn of(kind: SetValue<T, Q>) -> Value<T, Q> {
        Value::Set(kind)
    }
}

impl<T: Element<Q>, Q: Stock> Holds<DictValue<T, Q>> for Value<T, Q> {
    fn as_kind(&self) -> Option<&DictValue<T, Q>> {
        match self {
            Value::Dict(kind) => Some(kind),
            _ => None,
        }
    }

    fn of(kind: DictValue<T, Q>) -> Value<T, Q> {
        Value::Dict(kind)
    }
}

impl<T: Element<Q>, Q: Stock> Holds<OrderedSetValue<T, Q>> for Value<T, Q> {
    fn as_kind(&self) -> Option<&OrderedSetValue<T, Q>> {
        match self {
            Value::OSet(kind) => Some(kind),
            _ => None,
        }
    }

    fn of(kind: OrderedSetValue<T, Q>) -> Value<T, Q> {
        Value::OSet(kind)
    }
}

impl<T: Element<Q>, Q: Stock> Holds<OrderedDictValue<T, Q>> for Value<T, Q> {
    fn as_kind(&self) -> Option<&OrderedDictValue<T, Q>> {
        match self {
            Value::ODict(kind) => Some(kind),
            _ => None,
        }
    }

    fn of(kind: OrderedDictValue<T, Q>) -> Value<T, Q> {
        Value::ODict(kind)
    }
}

impl<T: Element<Q>, Q: Stock> Collection<Q> for Value<T, Q> {
    ghost takes = { λ statement. true };

    fn count(&self) -> usize {
        each!(self, it => Collection::<Q>::count(it))
    }

    fn size(&self) -> usize {
        each!(self, it => Collection::<Q>::size(it))
    }

    fn stop(&self) -> usize {
        each!(self, it => Collection::<Q>::stop(it))
    }

    fn copy(&mut self, h: &mut Holder<Q>) -> Value<T, Q> {
        alike!(self, it => Collection::<Q>::copy(it, h))
    }

    fn end(self, h: &mut Holder<Q>) {
        each!(self, it => Collection::<Q>::end(it, h))
    }

    fn put(&self, text: &mut Vec<u8>) -> Result<(), NoMemory> {
        each!(self, it => Collection::<Q>::put(it, text))
    }

    fn change(
        &mut self,
        alloc: Global,
        statement: &Statement,
        text: &mut Vec<u8>,
        h: &mut Holder<Q>,
    ) -> Result<Result<(), Refusal>, NoMemory> {
        if let Statement::Rebase { .. } = statement {
            return rebase(self, alloc, h);
        }
        each!(self, it => Collection::<Q>::change(it, alloc, statement, text, h))
    }

    fn parts(&self, statement: &Statement) -> bool {
        each!(self, it => Collection::<Q>::parts(it, statement))
    }

    fn cost(&self, statement: &Statement, alone: bool) -> usize {
        each!(self, it => Collection::<Q>::cost(it, statement, alone))
    }

    fn both_cost(&self, alone: bool) -> usize {
        each!(self, it => Collection::<Q>::both_cost(it, alone))
    }

    fn tell(
        &self,
        statement: &Statement,
        text: &mut Vec<u8>,
    ) -> Result<Result<(), Refusal>, NoMemory> {
        each!(self, it => Collection::<Q>::tell(it, statement, text))
    }

    fn slice_refusal(&self, i: i64, j: i64) -> Option<Refusal> {
        each!(self, it => Collection::<Q>::slice_refusal(it, i, j))
    }
}

impl<T: Element<Q>, Q: Stock> Meets<Value<T, Q>, Q> for Value<T, Q> {
    fn change_by(
        &mut self,
        statement: &Statement,
        other: &Value<T, Q>,
        h: &mut Holder<Q>,
    ) -> Result<Result<(), Refusal>, NoMemory> {
        each!(self, it => Meets::<Value<T, Q>, Q>::change_by(it, statement, other, h))
    }

    fn refusal_by(&self, statement: &Statement, other: &Value<T, Q>) -> Option<Refusal> {
        each!(self, it => Meets::<Value<T, Q>, Q>::refusal_by(it, statement, other))
    }

    fn parts_by(&self, statement: &Statement, other: &Value<T, Q>) -> bool {
        each!(self, it => Meets::<Value<T, Q>, Q>::parts_by(it, statement, other))
    }

    fn tell_both(
        &self,
        statement: &Statement,
        other: &Value<T, Q>,
        text: &mut Vec<u8>,
    ) -> Result<Result<(), Refusal>, NoMemory> {
        each!(self, it => Meets::<Value<T, Q>, Q>::tell_both(it, statement, other, text))
    }

    fn slice(&mut self, i: i64, j: i64, h: &mut Holder<Q>) -> Result<Value<T, Q>, Refusal> {
        each!(self, it => Meets::<Value<T, Q>, Q>::slice(it, i, j, h))
    }
}

// A new value of one kind.
macro_rules! made {
    ($variant:ident, $kind:ident, $made:expr) => {
        Ok(Value::$variant($kind { held: $made? }))
    };
}

impl<T: Element<Q>, Q: Stock> Values<Q> for Value<T, Q> {
    fn make(
        alloc: Global,
        kind: Kind,
        atoms: &[Literal],
        h: &mut Holder<Q>,
    ) -> Result<Value<T, Q>, NoMemory> {
        match kind {
            Kind::Array => made!(Array, ArrayValue, kind_array::make(alloc, atoms, h)),
            Kind::Deque => made!(Deque, DequeValue, kind_deque::make(alloc, atoms, h)),
            Kind::Set => made!(Set, SetValue, kind_set::make(alloc, atoms, h)),
            Kind::Dict => made!(Dict, DictValue, kind_dict::make(alloc, atoms, h)),
            Kind::OSet => made!(OSet, OrderedSetValue, kind_oset::make(alloc, atoms, h)),
            Kind::ODict => made!(ODict, OrderedDictValue, kind_odict::make(alloc, atoms, h)),
            Kind::Heap => made!(Heap, HeapValue, kind_heap::make(alloc, atoms, h)),
            _ => unreachable!(),
        }
    }

    ghost takes_all = { λ s. refl };
}

impl<T: Element<Q> + Operand<Q>, Q: Stock> Views<Q> for Value<T, Q> {
    fn has_views(&self) -> bool {
        match self {
            Value::Array(_) => true,
            _ => false,
        }
    }

    fn look(
        &mut self,
        alloc: Global,
        rule: &mut Box<dyn Rule>,
        verb: Verb,
        text: &mut Vec<u8>,
        h: &mut Holder<Q>,
    ) -> Result<(), NoMemory> {
        match self {
            Value::Array(a) => look(&mut a.held, alloc, rule, verb, text, h),
            _ => unreachable!(),
        }
    }
}
