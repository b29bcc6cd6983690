//! What names an extension, and its declared default.
ghost use Rattle.std.specs.Prelude.{◌≡◌, Option, Some, None, Ok, Err, IfOk, OnErr};
ghost use Rattle.std.specs.declared.alloc.Global.{Global};
ghost use Rattle.std.specs.declared.alloc.AllocError.{AllocError};

use buffa_codec::ExtensionCodec;
use std::alloc::{AllocError, Global};
use std::marker::PhantomData;

/// A default that a descriptor may declare: [`NoDefault`], or [`Make`].
///
/// ```ignore
/// let default = ext.declared(alloc)?; // None, where none is declared
/// ```
pub trait Declared<V> {
    /// Where the default may be asked for.
    ghost can_declare: { Self → Type 0 };

    /// Holds of what the default may be.
    ghost may_declare: { Self → Option V → Type 0 };

    /// Where making the default may be refused.
    ghost may_refuse: { Self → Type 0 };

    /// The default, made anew, or none.
    ///
    /// # Errors
    /// Where memory runs out; never where none is declared.
    ///
    /// ```ignore
    /// let default = ext.declared(alloc)?;
    /// ```
    fn declared(&self, alloc: Global) -> Result<Option<V>, AllocError>
        requires { can_declare self.now }
        ensures value { IfOk result (may_declare self.now) }
        ensures full { OnErr result (may_refuse self.now) };
}

/// No default is declared.
///
/// ```ignore
/// let ext: Extension<Int32, NoDefault> = Extension::<Int32>::new(7, "test.Carrier");
/// ```
#[derive(Clone, Copy)]
pub struct NoDefault;

impl<V> Declared<V> for NoDefault {
    ghost can_declare = { λ s. Unit {0} };

    ghost may_declare = { λ s o. o ≡ None };

    ghost may_refuse = { λ s. ⊥ };

    fn declared(&self, _alloc: Global) -> Result<Option<V>, AllocError> {
        Ok(None)
    }
}

/// A default that a function makes anew each time. [`Extension::with_default`] declares it.
///
/// ```ignore
/// let ext: Extension<Int32, Make<F>> = Extension::<Int32>::with_default(7, "test.Carrier", default);
/// ```
pub struct Make<F> {
    make: F,
}

impl<V, F: Fn(Global) -> Result<V, AllocError>> Declared<V> for Make<F> {
    ghost can_declare = { λ s. F.IsAlwaysCallable s.make };

    ghost may_declare = { λ s o. (a : Global) × (v : V) × F.post s.make a (Ok v) × (o ≡ Some v) };

    ghost may_refuse = { λ s. (a : Global) × (e : AllocError) × F.post s.make a (Err e) };

    fn declared(&self, alloc: Global) -> Result<Option<V>, AllocError> {
        let value = (self.make)(alloc)?;
        Ok(Some(value))
    }
}

impl<F: Copy> Clone for Make<F> {
    fn clone(&self) -> Result<Make<F>, AllocError>
        ensures { result ≡ Ok self.now }
    {
        let make = self.make;
        Ok(Make { make })
    }
}

impl<F: Copy> Copy for Make<F> {}

/// A number of an extendee, with the codec of its values, and its declared default.
///
/// Every number is taken; records of number 0, and past 536,870,911, never come from bytes.
///
/// ```ignore
/// let ext = Extension::<Int32>::new(7, "test.Carrier");
/// ```
pub struct Extension<C: ExtensionCodec, D = NoDefault> {
    pub(crate) number: u32,
    pub(crate) extendee: &'static str,
    pub(crate) default: D,
    codec: PhantomData<C>,
}

impl<C: ExtensionCodec, D: Copy> Clone for Extension<C, D> {
    fn clone(&self) -> Result<Extension<C, D>, AllocError>
        ensures { result ≡ Ok self.now }
    {
        let default = self.default;
        Ok(Extension {
            number: self.number,
            extendee: self.extendee,
            default,
            codec: PhantomData,
        })
    }
}

impl<C: ExtensionCodec, D: Copy> Copy for Extension<C, D> {}

impl<C: ExtensionCodec> Extension<C> {
    /// An extension of messages of the full name `extendee`, without a default. It takes no memory.
    ///
    /// ```ignore
    /// let ext = Extension::<Int32>::new(7, "test.Carrier");
    /// ```
    pub fn new(number: u32, extendee: &'static str) -> Extension<C>
        ensures number { result.number ≡ number }
        ensures extendee { result.extendee.now ≡ extendee.now }
    {
        Extension {
            number,
            extendee,
            default: NoDefault,
            codec: PhantomData,
        }
    }
}

impl<C: ExtensionCodec> Extension<C> {
    /// An extension with a default, which `default` makes each time. It takes no memory here.
    ///
    /// ```ignore
    /// let ext = Extension::<Int32>::with_default(7, "test.Carrier", default); // default: |_alloc: Global| .. { Ok(255) }
    /// ```
    pub fn with_default<F: Fn(Global) -> Result<C::Value, AllocError> + Copy>(
        number: u32,
        extendee: &'static str,
        default: F,
    ) -> Extension<C, Make<F>>
        requires { F.IsAlwaysCallable default }
        ensures number { result.number ≡ number }
        ensures extendee { result.extendee.now ≡ extendee.now }
        ensures default { result.default.make ≡ default }
    {
        Extension {
            number,
            extendee,
            default: Make { make: default },
            codec: PhantomData,
        }
    }
}

impl<C: ExtensionCodec, D> Extension<C, D> {
    /// The number of its records. It takes no memory.
    ///
    /// ```ignore
    /// let number = ext.number(); // 7
    /// ```
    pub fn number(&self) -> u32
        ensures { result ≡ self.now.number }
    {
        self.number
    }

    /// The full name of the messages that it extends. It takes no memory.
    ///
    /// ```ignore
    /// let name = ext.extendee(); // "test.Carrier"
    /// ```
    pub fn extendee(&self) -> &'static str
        ensures { result.now ≡ self.now.extendee.now }
    {
        self.extendee
    }
}

impl<C: ExtensionCodec, D: Declared<C::Value>> Extension<C, D> {
    /// The declared default, made anew, or none.
    ///
    /// # Errors
    /// Where memory runs out; never where none is declared.
    ///
    /// ```ignore
    /// let default = ext.declared(alloc)?;
    /// ```
    pub fn declared(&self, alloc: Global) -> Result<Option<C::Value>, AllocError>
        requires { D.can_declare self.now.default }
        ensures value { IfOk result (D.may_declare self.now.default) }
        ensures full { OnErr result (D.may_refuse self.now.default) }
    {
        self.default.declared(alloc)
    }
}
