//! The journal: full texts, texts that are read in windows, an entry of several pages, history that is dropped, and the fault that a read gives which fails.
mod forget;
mod full;
mod rations;
mod reads;
mod rows;
mod sessions;
mod windows;
