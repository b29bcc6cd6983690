// Payments and their transfers as words; none is read of a word.

use conformance_messages::{Parted, Parts, parted_word};
use conformance_rows::fault::Fault;
use conformance_rows::words::Worded;
use sample_payment::method::Method;
use sample_payment::payment::Payment;
use sample_payment::transfer::Transfer;
use std::alloc::Global;
use std::marker::PhantomData;

/// The words of payments. It has a parameter for the reason that `Branches` has one.
pub struct Payments<T> {
    of: PhantomData<T>,
}

// A part has one number, so each case is a part of its own: `none`, but for the one that is there.
impl<T> Parted<Payments<T>> for Payment {
    fn parts(&self, parts: &mut Parts<Payments<T>>) {
        parts.value(1, &self.amount);
        match &self.method {
            Some(Method::Card(card)) => parts.value(2, card),
            _ => parts.maybe::<String>(2, &None),
        }
        match &self.method {
            Some(Method::Cash(cash)) => parts.value(3, cash),
            _ => parts.maybe::<i32>(3, &None),
        }
        match &self.method {
            Some(Method::Transfer(transfer)) => parts.value(4, transfer),
            _ => parts.maybe::<Transfer>(4, &None),
        }
        parts.value(5, &self.note);
        parts.kept(&self.unknown_fields);
    }
}

impl<T> Worded<Payments<T>> for Payment {
    fn word(&self, alloc: Global) -> Result<String, Fault> {
        parted_word::<Payments<T>, _>(alloc, self)
    }

    fn of_word(_alloc: Global, _word: &str) -> Result<Payment, Fault> {
        Err(Fault::Form)
    }
}

impl<T> Parted<Payments<T>> for Transfer {
    fn parts(&self, parts: &mut Parts<Payments<T>>) {
        parts.value(1, &self.to);
        parts.value(2, &self.day);
        parts.kept(&self.unknown_fields);
    }
}

impl<T> Worded<Payments<T>> for Transfer {
    fn word(&self, alloc: Global) -> Result<String, Fault> {
        parted_word::<Payments<T>, _>(alloc, self)
    }

    fn of_word(_alloc: Global, _word: &str) -> Result<Transfer, Fault> {
        Err(Fault::Form)
    }
}
