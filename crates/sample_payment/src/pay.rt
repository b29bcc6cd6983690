//! How a `oneof` is read and set.

ghost use Rattle.std.specs.Prelude.{[], ◌≡◌, ◌↔◌, ℤ, IfOk, IsTrue, Some, string_bytes};
ghost use Rattle.sample_payment.specs.Payment.{card, cash, method, with_method};

use crate::method::Method;
use crate::payment::Payment;
use buffa_discard::DiscardUnknown;
use buffa_fields::Blank;
use std::alloc::{AllocError, Global};

/// The cash that is paid, where it is paid in cash.
pub fn cash_of(payment: &Payment) -> Option<i32>
    ensures { (coins : ℤ) → (result ≡ Some coins) ↔ (method (⟦<Payment as Blank>⟧.meaning payment.now) ≡ Some (cash coins)) }
{
    match &payment.method {
        Some(Method::Cash(cash)) => Some(*cash),
        _ => None,
    }
}

/// Says that it is paid in cash; a card or a transfer that stood there is gone.
pub fn pay_in_cash(payment: &mut Payment, coins: i32)
    ensures { ⟦<Payment as Blank>⟧.meaning payment.new ≡ with_method (Some (cash coins)) (⟦<Payment as Blank>⟧.meaning payment.old) }
{
    payment.method = Some(Method::Cash(coins));
}

/// Says that it is paid by a card.
///
/// # Errors
/// Where memory runs out.
pub fn pay_by_card(alloc: Global, payment: &mut Payment, number: &str) -> Result<(), AllocError>
    ensures { IfOk result (λ _. ⟦<Payment as Blank>⟧.meaning payment.new
        ≡ with_method (Some (card number.now)) (⟦<Payment as Blank>⟧.meaning payment.old)) }
{
    payment.method = Some(Method::Card(String::from_str(alloc, number)?));
    Ok(())
}

/// Whether two payments are equal: each member of one is that of the other, and so is each field that isn't declared.
pub fn is_same(a: &Payment, b: &Payment) -> bool
    ensures amount { IsTrue result → a.now.amount ≡ b.now.amount }
    ensures note { IsTrue result → string_bytes a.now.note ≡ string_bytes b.now.note }
{
    a == b
}

/// A copy of a payment: each member of it is that of the payment, and so is each field that isn't declared.
///
/// # Errors
/// Where memory runs out.
pub fn copy_of(payment: &Payment) -> Result<Payment, AllocError>
    ensures amount { IfOk result (λ copy. copy.amount ≡ payment.now.amount) }
    ensures note { IfOk result (λ copy. string_bytes copy.note ≡ string_bytes payment.now.note) }
{
    payment.clone()
}

/// Takes out of a payment, and of the transfer in it, what they don't declare.
pub fn keep_declared(alloc: Global, payment: &mut Payment)
    ensures amount { payment.new.amount ≡ payment.old.amount }
    ensures nothing { payment.new.unknown_fields.records ≡ [] }
{
    payment.discard_unknown_fields(alloc);
}
