//! What follows, in the URL of a request, the identifier that it refers to.

ghost use Rattle.std.specs.Prelude.{◌≡◌};
ghost use Rattle.odb_doc.specs.batch.Records.{record_of};
ghost use Rattle.odb_doc.specs.batch.UrlRests.{url_rest};

use crate::batch::request::Request;
use odb_names::after_first_segment;

impl<'a> Request<'a> {
    /// Returns the part of the URL after the identifier that it refers to: `/Lines?x=1` of `$a/Lines?x=1`. It is
    /// the whole URL if that refers to no request (OData JSON Format 4.01, section 19.1).
    pub fn url_rest(&self) -> &'a str
        ensures { result.now ≡ url_rest (record_of self.now) }
    {
        match &self.reference {
            Some(_) => {
                let length = after_first_segment(self.url).len();
                &self.url[self.url.len() - length..]
            }
            None => self.url,
        }
    }
}
