// What a value does at a waiting call: the method is entered.
#![tactic(auto)]

mod methods;

pub use methods::enter_method;
