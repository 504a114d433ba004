//! Requests.

ghost use Rattle.std.specs.Prelude.{◌≡◌};
ghost use Rattle.auc_sites.specs.Request.{same_request, is_before};

/// A site's request for numbers.
#[derive(Clone, Copy, PartialEq, Eq)]
pub struct Request {
    /// The site's number, from 1.
    pub site: u32,
    /// The site's boot number: it rises each time the site starts.
    pub boot: u32,
    /// Which of the site's requests since it started this is, from 1.
    pub ask: u32,
}

impl Request {
    // Whether it is this request.
    pub(crate) fn is(&self, other: Request) -> bool
        ensures { result ≡ same_request self.now other }
    {
        self.site == other.site && self.boot == other.boot && self.ask == other.ask
    }

    /// Whether it was made before another request of its site: requests are ordered by boot number, and then by ask.
    pub fn is_before(&self, other: Request) -> bool
        ensures { result ≡ is_before self.now other }
    {
        self.boot < other.boot || (self.boot == other.boot && self.ask < other.ask)
    }
}
