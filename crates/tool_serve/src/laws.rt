//! What holds of the sessions of `serve`: a function that does nothing, whose contract is a law.
ghost use Rattle.std.specs.Prelude.{Option};
ghost use Rattle.ftp_ports.specs.Actions.{Stand};
ghost use Rattle.ftp_server_driver.specs.alone.Side.{server_side};
ghost use Rattle.ftp_server_driver.specs.shared.Lending.{Holding};
ghost use Rattle.ftp_server_model.specs.declared.session.Standing.{Standing};
ghost use Rattle.tool_serve.specs.Served.{EachServedIsOneDrive};

/// All turns of a session that rounds serve are one drive, whatever the other sessions do: `serve_rounds` says that nothing but such turns happens.
pub fn each_served_is_one_drive<T, S>()
    // Witness: equations of the tree that each turn finds and leaves.
    ensures { (holds : T → Holding) (stood : S → Option Standing) (stand : S → Stand server_side) → EachServedIsOneDrive holds stood stand }
{}
