// The notifications of a running report (document 01, "RACP and notifications"): one call, which answers a segment of
// the report's next record, or the closing response.
#![tactic(auto)]

pub mod notify;
