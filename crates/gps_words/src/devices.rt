ghost use Rattle.std.specs.Prelude.{◌≡◌, ◌&&◌, ◌++◌, None, Some, IfOk, OnOk, map, nat_eq, option_map};
ghost use Rattle.std.specs.List.{list_any};
ghost use Rattle.gps_words.specs.Devices.{all_devices, devices_in, devices_of, edges_end_names, edges_for, edges_of, input_of, inputs_of, is_device, is_input, is_same, name_of, names_of, shown_devices, words_in};

use crate::WordsFault;
use crate::device::{DeviceWord, Input, Target, device_word};
use gps_fixed::{Bytes, NoMemory};
use gps_report::{Name, Names};
use std::alloc::Global;

/// The devices in the order of their numbers, in three lists of one length.
#[derive(Drop)]
pub(crate) struct Devices {
    pub(crate) names: Names,
    pub(crate) inputs: Vec<Input>,
    pub(crate) edges: Vec<Option<Bytes>>,
}

/// The device words of these texts, or none if one of them is no such word.
#[tactic(auto, using(crate::proofs::DeviceWords::none_read))]
fn device_words(alloc: Global, texts: &[&str]) -> Result<Option<Vec<DeviceWord>>, NoMemory>
    ensures { IfOk result (λ words. option_map (λ w. w.items) words ≡ words_in (map (λ t. t.now) texts.now)) }
{
    let mut words = Vec::new(alloc);
    'texts: for text in texts {
        match device_word(alloc, *text)? {
            Some(word) => words.push(word)?,
            None => return Ok(None),
        }
    }
    Ok(Some(words))
}

impl DeviceWord {
    fn is_named(&self, name: &Name) -> bool
        ensures { result ≡ is_same self.now.name name.now }
    {
        self.name == *name
    }

    fn is_input(&self) -> bool
        ensures { result ≡ is_input self.now.target }
    {
        match self.target {
            Target::Device(_) => true,
            Target::Edges(_) => false,
        }
    }

    fn is_input_of(&self, name: &Name) -> bool
        ensures { result ≡ (is_input self.now.target && is_same self.now.name name.now) }
    {
        self.is_input() && self.is_named(name)
    }
}

fn contains(words: &[DeviceWord], name: &Name) -> bool
    ensures { result ≡ list_any (λ word. is_same word.name name.now) words.now }
{
    words.iter().any(|word| word.is_named(name))
}

fn is_device(words: &[DeviceWord], name: &Name) -> bool
    ensures { result ≡ is_device words.now name.now }
{
    words.iter().any(|word| word.is_input_of(name))
}

fn all_devices(words: &[DeviceWord]) -> bool
    ensures { result ≡ all_devices words.now }
{
    words.iter().all(|word| is_device(words, &word.name))
}

#[tactic(auto, unfolding(crate::specs::Devices::edges_end_names))]
fn edges_end_names(words: &[DeviceWord]) -> bool
    ensures { result ≡ edges_end_names words.now }
{
    match words {
        [] => true,
        [word, rest @ ..] => {
            (word.is_input() || !contains(rest, &word.name)) && edges_end_names(rest)
        }
    }
}

/// Where the edges of a device come from, or nowhere.
#[tactic(auto, unfolding(crate::specs::Devices::edges_for))]
fn edges_for<'a>(name: &Name, words: &'a [DeviceWord]) -> Option<&'a Bytes>
    ensures { option_map (λ path. path.now) result ≡ edges_for name.now words.entry.now }
{
    match words {
        [] => None,
        [word, rest @ ..] => match &word.target {
            Target::Edges(path) if word.is_named(name) => Some(path),
            _ => edges_for(name, rest),
        },
    }
}

/// The three lists while they are gathered.
#[derive(Drop)]
struct Gathered {
    names: Vec<Name>,
    inputs: Vec<Input>,
    edges: Vec<Option<Bytes>>,
}

fn copy_of(path: Option<&Bytes>) -> Result<Option<Bytes>, NoMemory>
    ensures { IfOk result (λ copy. copy ≡ option_map (λ p. p.now) path.entry) }
{
    match path {
        Some(path) => {
            let copy = path.copy()?;
            Ok(Some(copy))
        }
        None => Ok(None),
    }
}

impl Input {
    fn copy(&self) -> Result<Input, NoMemory>
        ensures { IfOk result (λ copy. copy ≡ self.now) }
    {
        match self {
            Input::File(path) => {
                let path = path.copy()?;
                Ok(Input::File(path))
            }
            Input::Tcp(address) => {
                let address = address.copy()?;
                Ok(Input::Tcp(address))
            }
            Input::Gpsd(address) => {
                let address = address.copy()?;
                Ok(Input::Gpsd(address))
            }
        }
    }
}

impl Gathered {
    /// Adds the device that a word names, if it says where its bytes come from.
    fn add(&mut self, words: &[DeviceWord], word: &DeviceWord) -> Result<(), NoMemory>
        ensures names { OnOk result (self.new.names.items ≡ self.old.names.items ++ name_of word.now word.now.target) }
        ensures inputs { OnOk result (self.new.inputs.items ≡ self.old.inputs.items ++ input_of word.now.target) }
        ensures edges { OnOk result (self.new.edges.items ≡ self.old.edges.items ++ edges_of words.now (name_of word.now word.now.target)) }
    {
        match &word.target {
            Target::Device(input) => {
                let name = word.name.copy()?;
                let input = input.copy()?;
                let edges = copy_of(edges_for(&word.name, words))?;
                self.names.push(name)?;
                self.inputs.push(input)?;
                self.edges.push(edges)?;
                Ok(())
            }
            Target::Edges(_) => Ok(()),
        }
    }
}

#[tactic(auto, using(crate::proofs::DeviceWords::edges_join))]
fn gather(alloc: Global, words: &[DeviceWord]) -> Result<Gathered, NoMemory>
    ensures names { IfOk result (λ lists. lists.names.items ≡ names_of words.now) }
    ensures inputs { IfOk result (λ lists. lists.inputs.items ≡ inputs_of words.now) }
    ensures edges { IfOk result (λ lists. lists.edges.items ≡ edges_of words.now (names_of words.now)) }
{
    let mut lists = Gathered {
        names: Vec::new(alloc),
        inputs: Vec::new(alloc),
        edges: Vec::new(alloc),
    };
    'words: for word in words {
        lists.add(words, word)?;
    }
    Ok(lists)
}

/// The devices that the words name, or none if they name no devices.
#[tactic(auto, unfolding(crate::specs::Devices::devices_of))]
fn devices_of(alloc: Global, words: &[DeviceWord]) -> Result<Option<Devices>, NoMemory>
    ensures { IfOk result (λ devices. option_map shown_devices devices ≡ devices_of words.now) }
{
    if !(all_devices(words) && edges_end_names(words)) {
        return Ok(None);
    }
    let lists = gather(alloc, words)?;
    let Gathered {
        names,
        inputs,
        edges,
    } = lists;
    match Names::of(names) {
        Some(names) => Ok(Some(Devices {
            names,
            inputs,
            edges,
        })),
        None => Ok(None),
    }
}

/// The devices that the texts of 1 to 16 device words name.
#[tactic(auto, unfolding(crate::specs::Devices::devices_in))]
pub(crate) fn read_devices(alloc: Global, texts: &[&str]) -> Result<Option<Devices>, NoMemory>
    ensures { IfOk result (λ devices. option_map shown_devices devices ≡ devices_in (map (λ t. t.now) texts.now)) }
{
    if texts.is_empty() || texts.len() > 16 {
        return Ok(None);
    }
    match device_words(alloc, texts)? {
        Some(words) => devices_of(alloc, words.as_slice()),
        None => Ok(None),
    }
}
