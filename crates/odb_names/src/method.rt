//! The methods of requests.

ghost use Rattle.std.specs.Prelude.{◌≡◌, ℕ, MatchOption, IfSome};
ghost use Rattle.odb_names.specs.declared.method.Method.{Method};
ghost use Rattle.odb_names.specs.Methods.{Names, http_name, is_idempotent, method_name, takes_body};

/// What a request asks for (OData JSON Format 4.01, section 19.1).
#[derive(Clone, Copy, Debug, PartialEq, Eq, Hash)]
pub enum Method {
    Delete,
    Get,
    Patch,
    Post,
    Put,
}

impl Method {
    const ALL: [Method; 5] = [
        Method::Delete,
        Method::Get,
        Method::Patch,
        Method::Post,
        Method::Put,
    ];

    /// Returns the method of this name, in any ASCII case, or `None` if the text names no method.
    #[inline(always)]
    pub fn read(text: &str) -> Option<Method>
        ensures named { MatchOption result ((method : Method) → ¬ Names text.now method)
            (Names text.now) }
        ensures only { IfSome result (λ method. (other : Method) → Names text.now other
            → other ≡ method) }
    {
        Method::ALL
            .iter()
            .copied()
            .find(|method| text.eq_ignore_ascii_case(method.name()))
    }

    /// Returns the method's name in lower case.
    pub fn name(self) -> &'static str
        ensures { result.now ≡ method_name self }
    {
        match self {
            Method::Delete => "delete",
            Method::Get => "get",
            Method::Patch => "patch",
            Method::Post => "post",
            Method::Put => "put",
        }
    }

    /// Returns the method as a request of HTTP names it, in upper case (RFC 9110, section 9.1).
    pub fn http_name(self) -> &'static str
        ensures { result.now ≡ http_name self }
    {
        match self {
            Method::Delete => "DELETE",
            Method::Get => "GET",
            Method::Patch => "PATCH",
            Method::Post => "POST",
            Method::Put => "PUT",
        }
    }

    /// Returns whether a request with this method may have a body: all but `delete` and `get`.
    pub fn takes_body(self) -> bool
        ensures { result ≡ takes_body self }
    {
        match self {
            Method::Delete | Method::Get => false,
            Method::Patch | Method::Post | Method::Put => true,
        }
    }

    /// Returns whether to perform a request with this method twice has the effect of performing it once: all but
    /// `patch` and `post` (RFC 9110, section 9.2.2).
    pub fn is_idempotent(self) -> bool
        ensures { result ≡ is_idempotent self }
    {
        match self {
            Method::Delete | Method::Get | Method::Put => true,
            Method::Patch | Method::Post => false,
        }
    }
}
