//! The defaults are those that the readers fill in: each list reads as the fields that the standard makes mandatory alone say.
ghost use Rattle.std.specs.Prelude.{◌≡◌, ℕ, List, Some};
ghost use Rattle.amqp_data.specs.Data.{null, scalar, no_items, item};
ghost use Rattle.amqp_fields.specs.Fields.{of_string, of_uint};
ghost use Rattle.amqp_composites.specs.declared.modes.Role.{Role};
ghost use Rattle.amqp_composites.specs.Modes.{of_role};
ghost use Rattle.amqp_performatives.specs.Open.{open_of};
ghost use Rattle.amqp_performatives.specs.Begin.{begin_of};
ghost use Rattle.amqp_performatives.specs.Attach.{attach_of};
ghost use Rattle.amqp_performatives.specs.Flow.{flow_of};
ghost use Rattle.amqp_performatives.specs.Transfer.{transfer_of};
ghost use Rattle.amqp_performatives.specs.Disposition.{disposition_of};
ghost use Rattle.amqp_performatives.specs.Detach.{detach_of};
ghost use Rattle.amqp_performatives.specs.End.{end_of};
ghost use Rattle.amqp_performatives.specs.Close.{close_of};
ghost use Rattle.amqp_termini.specs.Source.{source_of};
ghost use Rattle.amqp_termini.specs.Target.{target_of};
ghost use Rattle.amqp_termini.specs.States.{rejected_of, modified_of};
ghost use Rattle.amqp_sections.specs.Header.{header_of};
ghost use Rattle.amqp_sections.specs.Properties.{properties_of};
ghost use Rattle.amqp_codec.specs.Defaults.{default_open, default_begin, default_attach, default_flow, default_transfer, default_disposition, default_detach, default_end, default_close, default_source, default_target, default_rejected, default_modified, default_header, default_properties};

/// A performative that is read of its mandatory fields alone is the one that `performatives` makes of them (part 2, section 2.7).
pub fn performatives_have_the_readers_defaults()
    ensures read_open { (id : List ℕ) → open_of (item (of_string id) no_items) ≡ Some (default_open id) }
    ensures read_begin { (n i o : ℕ) → begin_of (item (scalar null) (item (of_uint n) (item (of_uint i) (item (of_uint o) no_items)))) ≡ Some (default_begin n i o) }
    ensures read_attach { (name : List ℕ) (handle : ℕ) (role : Role) → attach_of (item (of_string name) (item (of_uint handle) (item (of_role role) no_items))) ≡ Some (default_attach name handle role) }
    ensures read_flow { (i n o : ℕ) → flow_of (item (scalar null) (item (of_uint i) (item (of_uint n) (item (of_uint o) no_items)))) ≡ Some (default_flow i n o) }
    ensures read_transfer { (handle : ℕ) → transfer_of (item (of_uint handle) no_items) ≡ Some (default_transfer handle) }
    ensures read_disposition { (role : Role) (first : ℕ) → disposition_of (item (of_role role) (item (of_uint first) no_items)) ≡ Some (default_disposition role first) }
    ensures read_detach { (handle : ℕ) → detach_of (item (of_uint handle) no_items) ≡ Some (default_detach handle) }
    ensures read_end { end_of no_items ≡ Some default_end }
    ensures read_close { close_of no_items ≡ Some default_close }
{}

/// A terminus, an outcome and a section that is read of no fields is the one that says nothing (part 3).
pub fn empty_lists_have_the_readers_defaults()
    ensures read_source { source_of no_items ≡ Some default_source }
    ensures read_target { target_of no_items ≡ Some default_target }
    ensures read_rejected { rejected_of no_items ≡ Some default_rejected }
    ensures read_modified { modified_of no_items ≡ Some default_modified }
    ensures read_header { header_of no_items ≡ Some default_header }
    ensures read_properties { properties_of no_items ≡ Some default_properties }
{}
