//! The methods that a request may name.

ghost use Rattle.std.specs.Prelude.{◌≡◌};
ghost use Rattle.conversing.specs.Requests.{question_of, deed_of, method_of};

/// A method, without its parameters.
#[derive(Clone, Copy, Debug, PartialEq, Eq)]
pub enum Method {
    QueryTip,
    QueryHeight,
    QueryUtxo,
    QueryBlock,
    QueryTransaction,
    QueryMempool,
    Why,
    FindIntersection,
    NextBlock,
    SubmitTransaction,
    Evaluate,
    Forge,
    Flush,
    Stop,
}

/// The method of this name that asks for what the node has.
fn question_of(name: &[u8]) -> Option<Method>
    ensures { result ≡ question_of name.now }
{
    if name == b"queryTip".as_slice() {
        Some(Method::QueryTip)
    } else if name == b"queryHeight".as_slice() {
        Some(Method::QueryHeight)
    } else if name == b"queryUtxo".as_slice() {
        Some(Method::QueryUtxo)
    } else if name == b"queryBlock".as_slice() {
        Some(Method::QueryBlock)
    } else if name == b"queryTransaction".as_slice() {
        Some(Method::QueryTransaction)
    } else if name == b"queryMempool".as_slice() {
        Some(Method::QueryMempool)
    } else if name == b"why".as_slice() {
        Some(Method::Why)
    } else {
        None
    }
}

/// The method of this name that has the node do something.
fn deed_of(name: &[u8]) -> Option<Method>
    ensures { result ≡ deed_of name.now }
{
    if name == b"findIntersection".as_slice() {
        Some(Method::FindIntersection)
    } else if name == b"nextBlock".as_slice() {
        Some(Method::NextBlock)
    } else if name == b"submitTransaction".as_slice() {
        Some(Method::SubmitTransaction)
    } else if name == b"evaluate".as_slice() {
        Some(Method::Evaluate)
    } else if name == b"forge".as_slice() {
        Some(Method::Forge)
    } else if name == b"flush".as_slice() {
        Some(Method::Flush)
    } else if name == b"stop".as_slice() {
        Some(Method::Stop)
    } else {
        None
    }
}

impl Method {
    /// The method of this name.
    #[tactic(auto, unfolding(crate::specs::Requests::method_of))]
    pub fn of_name(name: &str) -> Option<Method>
        ensures { result ≡ method_of name.now }
    {
        match question_of(name.as_bytes()) {
            Some(method) => Some(method),
            None => deed_of(name.as_bytes()),
        }
    }
}
