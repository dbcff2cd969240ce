//! The documents whose sessions are tried.

use rs_answers::{AcceptedDocument, accept_document};
use rs_documents::read_document;
use rs_model::Bound;
use rs_safety::Accepted;
use std::alloc::Global;

/// The session of a text: none if it is refused, or memory ran out.
pub fn accepted_of(alloc: Global, text: &[u8]) -> Option<Accepted> {
    let Ok(document) = read_document(alloc, text) else {
        return None;
    };
    match accept_document(alloc, document, Bound::standard()) {
        Ok(AcceptedDocument { session, .. }) => Some(session),
        Err(_refused) => None,
    }
}

/// Double buffering, one ready ahead.
pub const BUFFERING: &[u8] =
    b"roles K, S, T\nprotocol rec X. K->S:ready(). T->K:ready(). S->K{copy(bytes). K->T:copy(bytes). X, stop(). K->S:ready(). K->T:stop(). end}\nmachine K: S!ready(). rec X. S!ready(). T?ready(). S?{copy(bytes). T!copy(bytes). X, stop(). T!stop(). end}\n";

/// The same without an end.
pub const ENDLESS_BUFFERING: &[u8] =
    b"roles K, S, T\nprotocol rec X. K->S:ready(). T->K:ready(). S->K:copy(bytes). K->T:copy(bytes). X\nmachine K: S!ready(). rec X. S!ready(). T?ready(). S?copy(bytes). T!copy(bytes). X\n";

/// Both send twice before they receive: rings of one message are too small.
pub const TWICE: &[u8] =
    b"roles A, B\nprotocol A->B:x(). A->B:x(). B->A:y(). B->A:y(). end\nmachine B: A!y(). A!y(). A?x(). A?x(). end\n";

/// A waits first, although by the protocol it sends.
pub const WAITS: &[u8] =
    b"roles A, B\nprotocol A->B:x(). B->A:y(). end\nmachine A: B?y(). B!x(). end\n";

/// A goes on for ever, as B does.
pub const ENDLESS: &[u8] = b"roles A, B\nprotocol rec X. A->B:x(). B->A:y(). X\n";

/// A alone sends, for ever.
pub const ENDLESS_SENDS: &[u8] = b"roles A, B\nprotocol rec X. A->B:x(). X\n";
