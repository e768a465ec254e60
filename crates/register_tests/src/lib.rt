// Examples of registers over memory of several sizes.
#![tactic(auto)]

#[cfg(test)]
mod answers;
#[cfg(test)]
mod entering;
#[cfg(test)]
mod invoices;
#[cfg(test)]
mod limits;
#[cfg(test)]
mod reading;
