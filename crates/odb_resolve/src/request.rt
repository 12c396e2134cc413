//! What a request asks for, and what others were answered.

/// Where the requests of a batch may be sent.
#[derive(Clone, Copy, Debug)]
pub struct Service<'a> {
    /// The absolute URL of the folder of `$batch`, such as `http://host/odata/`: relative URLs are joined to it.
    pub base: &'a str,
    /// The roots: absolute URLs with a host, that end with `/` and have neither user information nor query. A text
    /// that is not one allows nothing.
    pub roots: &'a [&'a str],
}

/// What a request was answered.
#[derive(Clone, Copy, Debug)]
pub struct Answer<'a> {
    /// The absolute URL to which the request was sent.
    pub url: &'a str,
    /// The `Location` of the answer, absolute or relative to `url`. An empty one is as none.
    pub location: Option<&'a str>,
    /// Whether the request was a POST: without a `Location`, nothing names what it has made.
    pub is_post: bool,
    /// The `ETag` of the answer.
    pub etag: Option<&'a str>,
}

/// A request of the batch that others may refer to.
#[derive(Clone, Copy, Debug)]
pub struct Known<'a> {
    /// Its id.
    pub id: &'a str,
    /// What it was answered, or `None` before that.
    pub answer: Option<Answer<'a>>,
}

/// What is asked of a request.
#[derive(Clone, Copy, Debug)]
pub struct Request<'a> {
    /// The URL; of a request that refers to another, what follows the reference: `/Lines` of `$a/Lines`.
    pub url: &'a str,
    /// The id of the request that the URL refers to: `a` of `$a/Lines`.
    pub reference: Option<&'a str>,
    /// The value of `If-Match`.
    pub if_match: Option<&'a str>,
    /// The value of `If-None-Match`.
    pub if_none_match: Option<&'a str>,
}
