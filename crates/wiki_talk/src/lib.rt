//! What is asked of the wiki, and what it answers.
#![tactic(auto)]

mod causes;
mod kinds;
mod limits;
mod refusals;
mod replies;
mod requests;
mod statuses;

pub use causes::cause_name;
pub use kinds::{kind_name, kind_named};
pub use limits::{Limit, MOST_SENTENCES, MOST_SESSIONS};
pub use refusals::{BAD_REQUEST, Refusal, Title};
pub use replies::{
    Meant, MenuView, Numbers, Reply, SentenceView, SentenceViews, WordView, WordViews,
};
pub use requests::{
    ArticleRequest, LineRequest, Request, SessionRequest, WikiRequest, WordRequest,
};
pub use statuses::Status;
