//! Desks at work, tested: each reply to a submit, each event at its gate, tries that are overtaken, workers that overlap, sixteen of them at once, a reader beside a
//! submit, replies in order, shut gates, many seats over few texts, and what each fault prints.
#![tactic(auto)]

#[cfg(test)]
mod asked;
#[cfg(test)]
mod at_work;
#[cfg(test)]
mod beside;
#[cfg(test)]
mod commits;
#[cfg(test)]
mod compare;
#[cfg(test)]
mod crowd;
#[cfg(test)]
mod day;
#[cfg(test)]
mod desks;
#[cfg(test)]
mod flags;
#[cfg(test)]
mod gates;
#[cfg(test)]
mod jobs;
#[cfg(test)]
mod letters;
#[cfg(test)]
mod looks;
#[cfg(test)]
mod overlap;
#[cfg(test)]
mod overtaking;
#[cfg(test)]
mod printing;
#[cfg(test)]
mod soak;
#[cfg(test)]
mod spent;
#[cfg(test)]
mod submit_replies;
#[cfg(test)]
mod viewers;
